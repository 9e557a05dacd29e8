//! The lines that tell of a run: its log line, and lines of numbers. Uses `formulas`, `text` and `runs`.
#![tactic(auto)]

ghost use Rattle.std.specs.Prelude.{◌≡◌, ◌∷◌, ◌++◌, OnOk, string_bytes};
ghost use Rattle.std.specs.List.{flat_map};
ghost use Rattle.formulas.specs.Tree.{numeral};
ghost use Rattle.run_lines.specs.Lines.{byte_text, set_text, log_line, numbers_line};

use runs::line::Line;
use std::alloc::AllocError;

/// The two hex digits of a byte.
#[tactic(auto, using(std::proofs::lemmas::Fmt::hex_byte))]
fn push_byte(out: &mut String, byte: u8) -> Result<(), AllocError>
    ensures { OnOk result (string_bytes out.new ≡ string_bytes out.old ++ byte_text byte) }
{
    write!(out, "{byte:02x}")
}

/// A set of rules, as 16 hex digits.
#[tactic(auto, unfolding(crate::specs::Lines::set_text))]
pub fn push_set(out: &mut String, set: u64) -> Result<(), AllocError>
    ensures { OnOk result (string_bytes out.new ≡ string_bytes out.old ++ set_text set) }
{
    for byte in &set.to_be_bytes() {
        push_byte(out, *byte)?;
    }
    Ok(())
}

/// The line of a run, as it stands in a log.
#[tactic(auto, using(text::proofs::Pieces::pieces))]
pub fn push_log_line(out: &mut String, line: &Line) -> Result<(), AllocError>
    ensures { OnOk result (string_bytes out.new ≡ string_bytes out.old ++ log_line line.now) }
{
    write!(out, "log ")?;
    push_set(out, line.listed)?;
    write!(out, " ")?;
    push_set(out, line.used)?;
    writeln!(out, " {}", line.verdict.number())
}

/// Numbers, a blank before each.
fn push_each(out: &mut String, numbers: &[u32]) -> Result<(), AllocError>
    ensures { OnOk result (string_bytes out.new ≡ string_bytes out.old ++ flat_map (λ n. 32 ∷ numeral n) numbers.now) }
{
    for number in numbers {
        write!(out, " {number}")?;
    }
    Ok(())
}

/// A word, and numbers after it.
#[tactic(auto, using(text::proofs::Pieces::pieces))]
pub fn push_numbers(out: &mut String, word: &str, numbers: &[u32]) -> Result<(), AllocError>
    ensures { OnOk result (string_bytes out.new ≡ string_bytes out.old ++ numbers_line word.now numbers.now) }
{
    write!(out, "{word}")?;
    push_each(out, numbers)?;
    writeln!(out)
}
