//! The lines of the text.
ghost use Rattle.std.specs.Prelude.{◌≡◌, ◌++◌, OnOk, string_bytes};
ghost use Rattle.preview.specs.Preview.{line, names, numbers_in};

use judge::number_of;
use std::alloc::AllocError;
use text::{push_digits, push_number, push_separator};

/// A line with the names of some cells.
// A loop of its own, as that of the numbers is: a function for both would take a closure that writes, and say more of it than it saves.
pub fn push_names(out: &mut String, cells: &[u8]) -> Result<(), AllocError>
    ensures { OnOk result (string_bytes out.new ≡ string_bytes out.old ++ line (names cells.now)) }
{
    for (place, cell) in cells.iter().enumerate() {
        push_separator(out, " ", place)?;
        out.push('C')?;
        push_digits(out, u64::from(*cell))?;
    }
    out.push_str("\n")
}

/// A line with the numbers that some cells have in a row.
pub fn push_row(out: &mut String, cells: &[u8], row: &[i32]) -> Result<(), AllocError>
    ensures { OnOk result (string_bytes out.new ≡ string_bytes out.old ++ line (numbers_in row.now cells.now)) }
{
    for (place, cell) in cells.iter().enumerate() {
        push_separator(out, " ", place)?;
        push_number(out, number_of(*cell, row))?;
    }
    out.push_str("\n")
}
