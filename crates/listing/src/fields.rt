//! The formulas in a file.
ghost use Rattle.std.specs.Prelude.{◌≡◌, ◌+◌, ◌^◌, ◌<◌, min, List, [], ◌++◌, length, IfOk, if◌then◌else◌, OnOk, nat_eq};
ghost use Rattle.std.specs.List.{flat_map};
ghost use Rattle.sheets.specs.Sheet.{Field, field_bytes};
ghost use Rattle.listing.specs.Listing.{text_line, formula_lines};

use sheets::tag::Tag;
use std::alloc::AllocError;
use text::{Appended, push_digits};

/// The line of a formula.
#[tactic(auto, using(text::proofs::Pieces::pieces))]
fn push_formula(out: &mut Vec<u8>, number: u64, formula: &[u8]) -> Result<(), AllocError>
    ensures { OnOk result (out.new.items ≡ out.old.items ++ text_line number formula.now) }
{
    out.push_text("rule ")?;
    push_digits(out, number)?;
    out.push_text(" formula ")?;
    out.extend_from_slice(formula)?;
    out.push_text("\n")
}

/// The line of a field if it is a formula's. It returns the number of the next formula.
fn push_field(out: &mut Vec<u8>, number: u64, tag: u8, content: &[u8]) -> Result<u64, AllocError>
    ensures { IfOk result (λ n. (out.new.items ≡ out.old.items ++ (if nat_eq tag 3 then text_line number content.now else []))
        × (number + 1 < 2 ^ 64 → n ≡ (if nat_eq tag 3 then number + 1 else number))) }
{
    let Ok(Tag::Formula) = Tag::try_from(tag) else {
        return Ok(number);
    };
    push_formula(out, number, content)?;
    Ok(number.saturating_add(1))
}

/// The lines of a file's formulas.
pub fn push_formulas(out: &mut Vec<u8>, first: u64, file: &[u8]) -> Result<(), AllocError>
    ensures { OnOk result ((fs : List Field) → first + length fs < 2 ^ 64 → file.now ≡ flat_map field_bytes fs → out.new.items ≡ out.old.items ++ formula_lines first fs) }
{
    let mut number = first;
    let mut rest = file;
    while let Some((&[tag, high, low], after)) = rest.split_first_chunk::<3>() {
        let size = usize::from(u16::from_be_bytes([high, low]));
        let (content, others) = after.split_at(size.min(after.len()));
        number = push_field(out, number, tag, content)?;
        rest = others;
    }
    Ok(())
}
