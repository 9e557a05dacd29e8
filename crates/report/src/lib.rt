//! The text that tells a Fit's answer. Uses `bits`, `formulas` and `text`.
#![tactic(auto)]

ghost use Rattle.std.specs.Prelude.{◌≡◌, ℕ, ◌+◌, ◌*◌, ◌<◌, [], ◌++◌, pos, if◌then◌else◌, OnOk, slice_index, slice_index_or, string_bytes};
ghost use Rattle.bits.specs.Sets.{in?};
ghost use Rattle.report.specs.Report.{cell_line, fits_text, rule_line, clash_text};

use bits::has;
use std::alloc::AllocError;

/// The number at a place of a cell's list, 0 where it is missing; the lists have 64 places each.
// `formula_book` has the same line in a method of its book; of the crates below both none is about lists.
fn number_at(numbers: &[i32], cell: u8, place: u8) -> i32
    ensures { result ≡ slice_index_or numbers.now (64 * cell + place) (pos 0) }
{
    let index = 64 * usize::from(cell) + usize::from(place);
    numbers.get(index).copied().unwrap_or(0)
}

/// The number that a filling gives a cell; a cell past the filling has place 0.
fn number_in(numbers: &[i32], filling: &[u8], cell: u8) -> i32
    ensures { result ≡ slice_index_or numbers.now (64 * cell + slice_index filling.now cell) (pos 0) }
{
    let place = filling.get(usize::from(cell)).copied().unwrap_or(0);
    number_at(numbers, cell, place)
}

/// A cell and its number, as `C0=3`.
#[tactic(auto, using(text::proofs::Decimals::decimal_numeral, text::proofs::Decimals::signed_number_text))]
fn push_cell(out: &mut String, cell: u8, number: i32) -> Result<(), AllocError>
    ensures { OnOk result (string_bytes out.new ≡ string_bytes out.old ++ cell_line cell number) }
{
    writeln!(out, "C{cell}={number}")
}

/// `FITS` and the number of lines, then each cell with the number at its place.
#[tactic(auto, using(text::proofs::Decimals::decimal_numeral))]
pub fn push_fits(
    out: &mut String,
    lines: usize,
    cells: u8,
    numbers: &[i32],
    filling: &[u8],
) -> Result<(), AllocError>
    ensures { OnOk result (string_bytes out.new ≡ string_bytes out.old ++ fits_text lines cells (λ c. slice_index_or numbers.now (64 * c + slice_index filling.now c) (pos 0))) }
{
    writeln!(out, "FITS {lines}")?;
    for cell in 0..cells {
        push_cell(out, cell, number_in(numbers, filling, cell))?;
    }
    Ok(())
}

/// A rule of the core, as `rule 0`; nothing for any other rule.
#[tactic(auto, using(text::proofs::Decimals::decimal_numeral))]
fn push_rule(out: &mut String, core: u64, rule: u8) -> Result<(), AllocError>
    requires { rule < 64 }
    ensures { OnOk result (string_bytes out.new ≡ string_bytes out.old ++ (if in? core rule then rule_line rule else [])) }
{
    if !has(core, rule) {
        return Ok(());
    }
    writeln!(out, "rule {rule}")
}

/// `CLASH` and the number of lines, then the rules of the core, rising.
#[tactic(auto, using(text::proofs::Decimals::decimal_numeral))]
pub fn push_clash(out: &mut String, lines: usize, core: u64) -> Result<(), AllocError>
    ensures { OnOk result (string_bytes out.new ≡ string_bytes out.old ++ clash_text lines core) }
{
    writeln!(out, "CLASH {lines}")?;
    for rule in 0..64 {
        push_rule(out, core, rule)?;
    }
    Ok(())
}

#[cfg(test)]
mod tests {
    use std::test::Fail;

    // One cell, whose list has the number 5 at place 2.
    const NUMBERS: [i32; 3] = [0, 0, 5];

    #[test]
    fn fits_written(rt: HostRuntime) -> Result<(), Fail> {
        let mut out = String::new(rt.alloc());
        super::push_fits(&mut out, 1, 1, &NUMBERS, &[2])?;
        assert!(rt; out.as_str() == "FITS 1\nC0=5\n");
        Ok(())
    }

    #[test]
    fn clash_written(rt: HostRuntime) -> Result<(), Fail> {
        let mut out = String::new(rt.alloc());
        super::push_clash(&mut out, 3, 1)?;
        assert!(rt; out.as_str() == "CLASH 3\nrule 0\n");
        Ok(())
    }
}
