//! Rows of one rule: which are stored, and which are allowed.
ghost use Rattle.std.specs.Prelude.{◌≡◌, ℕ, ◌/◌, ◌<◌, length, Decides};
ghost use Rattle.network.specs.Tries.{Tried};
ghost use Rattle.rows.specs.Support.{Unstored, row_in, rows_within};

use bits::{count, has};
use network::masks::Masks;
use network::tries::some_row;

/// Whether a row has an allowed place at each position.
fn is_allowed(row: &[u8], masks: &[u64]) -> bool
    ensures { Decides result (Tried masks.now row.now) }
{
    row.len() == masks.len()
        && row
            .iter()
            .zip(masks)
            .all(|(place, mask)| has(*mask, *place))
}

/// Whether some stored row has allowed places only; stops at the first.
pub(crate) fn some_stored(rows: &[u8], masks: Masks<'_>) -> bool
    requires { 0 < length masks.each.now }
    ensures { Decides result ((j : ℕ) × (j < length rows.now / length masks.entry.each.now) × Tried masks.entry.each.now (row_in (length masks.entry.each.now) rows.now j)) }
{
    rows.chunks_exact(masks.each.len())
        .any(|row| is_allowed(row, masks.each))
}

/// Whether a row is one of the stored ones, of `width` places each.
fn is_stored(rows: &[u8], width: usize, row: &[u8]) -> bool
    requires { 0 < width }
    ensures { Decides result ((j : ℕ) × (j < length rows.now / width) × (row_in width rows.now j ≡ row.now)) }
{
    // Place by place: rows have four places at most, and comparing slices is made for longer ones.
    rows.chunks_exact(width).any(|stored| stored.iter().eq(row))
}

/// How many rows have allowed places only.
fn allowed_rows(masks: Masks<'_>) -> u32
    ensures { result ≡ rows_within masks.entry.each.now (length masks.entry.each.now) }
{
    let mut rows = 1;
    for mask in masks.each {
        rows *= count(*mask) as u32;
    }
    rows
}

/// Whether some row with allowed places only is not stored.
/// Where more rows are allowed than stored, one is not, and none is tried. So no more rows are tried than are stored.
pub(crate) fn some_unstored(rows: &[u8], masks: Masks<'_>) -> bool
    requires { 0 < length masks.each.now }
    ensures { Decides result (Unstored (length rows.now / length masks.entry.each.now) rows.now masks.entry.each.now) }
{
    let allowed = allowed_rows(masks);
    allowed as usize > rows.len() / masks.each.len()
        || allowed > 0 && some_row(masks, |row| !is_stored(rows, masks.each.len(), row))
}
