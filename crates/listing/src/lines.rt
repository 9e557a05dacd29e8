//! The lines of the cells and of the rules by rows.
ghost use Rattle.std.specs.Prelude.{◌≡◌, ◌*◌, ◌∷◌, ◌++◌, map, take, drop, OnOk};
ghost use Rattle.std.specs.List.{flat_map};
ghost use Rattle.formulas.specs.Tree.{numeral, number_text};
ghost use Rattle.listing.specs.Listing.{numbered, cell_line, kind_text, commas, row_text, rows_line, rows_in, field_of, list_in};

use rows::rule::{Kind, RowsRule};
use std::alloc::AllocError;
use text::{Appended, part, push_digits, push_number, push_separator};

/// A small number's digits.
// Most have one, which is pushed as a byte: to copy a text of one character takes longer than the rest.
#[inline(always)]
fn push_small(out: &mut Vec<u8>, number: u8) -> Result<(), AllocError>
    ensures { OnOk result (out.new.items ≡ out.old.items ++ numeral number) }
{
    if number < 10 {
        out.extend_from_slice(&[b'0' + number])
    } else {
        push_digits(out, u64::from(number))
    }
}

/// Some numbers, each after the same text.
// Inlined, so that the text, a character or two, is known where it is copied.
#[inline(always)]
fn push_each(out: &mut Vec<u8>, before: &str, items: &[u8]) -> Result<(), AllocError>
    ensures { OnOk result (out.new.items ≡ out.old.items ++ flat_map (λ v. before.now ++ numeral v) items.now) }
{
    for item in items {
        out.push_text(before)?;
        push_small(out, *item)?;
    }
    Ok(())
}

/// The numbers of a list.
// A loop of its own: one for bytes and for numbers with a sign would take the function that writes an item, and say more of it than it saves.
fn push_numbers(out: &mut Vec<u8>, numbers: &[i32]) -> Result<(), AllocError>
    ensures { OnOk result (out.new.items ≡ out.old.items ++ flat_map (λ z. 32 ∷ number_text z) numbers.now) }
{
    for &number in numbers {
        out.push_text(" ")?;
        push_number(out, number)?;
    }
    Ok(())
}

/// The line of a cell.
#[tactic(auto, using(text::proofs::Pieces::pieces))]
fn push_cell(out: &mut Vec<u8>, cell: usize, numbers: &[i32]) -> Result<(), AllocError>
    ensures { OnOk result (out.new.items ≡ out.old.items ++ cell_line cell numbers.now) }
{
    out.push_text("C")?;
    push_digits(out, cell as u64)?;
    out.push_text(":")?;
    push_numbers(out, numbers)?;
    out.push_text("\n")
}

/// The lines of the cells, whose lists have these lengths, and 64 places each among the numbers.
pub fn push_cells(out: &mut Vec<u8>, lengths: &[u8], numbers: &[i32]) -> Result<(), AllocError>
    ensures { OnOk result (out.new.items ≡ out.old.items ++ numbered (λ c n. cell_line c (list_in numbers.now c n)) 0 lengths.now) }
{
    for (cell, length) in lengths.iter().enumerate() {
        let list = part(numbers, cell.saturating_mul(64), usize::from(*length));
        push_cell(out, cell, list)?;
    }
    Ok(())
}

/// What kind of rows a rule stores, in words.
// No `Display` of `Kind`: its crate writes nothing, and this line alone has these words.
fn kind_words(kind: Kind) -> &'static str
    ensures { result.now ≡ kind_text kind }
{
    match kind {
        Kind::Permitted => " permitted",
        Kind::Forbidden => " forbidden",
    }
}

/// The rows of a rule, with a comma between them.
fn push_rows(out: &mut Vec<u8>, rule: &RowsRule, places: &[u8]) -> Result<(), AllocError>
    ensures { OnOk result (out.new.items ≡ out.old.items ++ commas (map row_text (rows_in places.now rule.now))) }
{
    let width = usize::from(rule.width);
    // By number and no `chunks_exact`, which refuses the width 0 that a rule may have here.
    for row in 0..rule.count {
        push_separator(out, ",", row as usize)?;
        let from = rule.start as usize + row as usize * width;
        push_each(out, " ", part(places, from, width))?;
    }
    Ok(())
}

/// The line of a rule.
#[tactic(auto, using(text::proofs::Pieces::pieces))]
fn push_rule(
    out: &mut Vec<u8>,
    number: usize,
    rule: &RowsRule,
    places: &[u8],
) -> Result<(), AllocError>
    ensures { OnOk result (out.new.items ≡ out.old.items ++ rows_line number (field_of places.now rule.now)) }
{
    out.push_text("rule ")?;
    push_digits(out, number as u64)?;
    out.push_text(kind_words(rule.kind))?;
    let cells = rule.cells;
    push_each(out, " C", part(&cells, 0, usize::from(rule.width)))?;
    out.push_text(":")?;
    push_rows(out, rule, places)?;
    out.push_text("\n")
}

/// The lines of the rules.
pub fn push_rules(out: &mut Vec<u8>, rules: &[RowsRule], places: &[u8]) -> Result<(), AllocError>
    ensures { OnOk result (out.new.items ≡ out.old.items ++ numbered (λ r rule. rows_line r (field_of places.now rule)) 0 rules.now) }
{
    for (number, rule) in rules.iter().enumerate() {
        push_rule(out, number, rule, places)?;
    }
    Ok(())
}
