//! Rows tried one by one, and the places that they may have.
ghost use Rattle.std.specs.Prelude.{◌≡◌, ℕ, ◌≤◌, true, false, List, [], ◌<◌, length, slice_index};
ghost use Rattle.std.specs.Fn.{FnReturnsAt};
ghost use Rattle.network.specs.Tries.{Allows, GoesOn, Tried};

use crate::masks::Masks;
use bits::{has, only};

/// Whether a row with an allowed place at each position passes a test; it stops at the first.
// That the test may be called on any row is asked by a clause, as by std's own functions that take a closure.
pub fn some_row<F: Fn(&[u8]) -> bool>(masks: Masks<'_>, passes: F) -> bool
    requires callable { F.IsAlwaysCallable passes }
    ensures yes { result ≡ true → (row : List ℕ) × Tried masks.entry.each.now row × FnReturnsAt F.Fn passes row true }
    ensures no { result ≡ false → (row : List ℕ) → Tried masks.entry.each.now row → FnReturnsAt F.Fn passes row false }
{
    goes_on(masks, &passes, [0; 4], 0)
}

/// Whether such a row that begins with the first `at` of these places passes the test.
fn goes_on<F: Fn(&[u8]) -> bool>(masks: Masks<'_>, passes: &F, places: [u8; 4], at: usize) -> bool
    requires callable { F.IsAlwaysCallable passes.now }
    requires within { at ≤ length masks.each.now }
    ensures yes { result ≡ true → (row : List ℕ) × GoesOn masks.entry.each.now places at row × FnReturnsAt F.Fn passes.now row true }
    ensures no { result ≡ false → (row : List ℕ) → GoesOn masks.entry.each.now places at row → FnReturnsAt F.Fn passes.now row false }
{
    if at == masks.each.len() {
        return passes(&places[..at]);
    }
    // A loop and no `any`: a closure that calls this function would have to repeat its clauses.
    for place in 0..64u8 {
        if has(masks.each[at], place) {
            let mut next = places;
            next[at] = place;
            if goes_on(masks, passes, next, at + 1) {
                return true;
            }
        }
    }
    false
}

/// The places allowed at each position: those that remain at its cell, and at the given position, if there is one, the given place alone.
pub fn allowed(cells: [u8; 4], position: u8, place: u8, sets: &[u64]) -> [u64; 4]
    ensures { Allows cells position place sets.now result }
{
    let mut masks = cells.map(|cell| remaining(sets, cell));
    // A test and no `get_mut`: a write through that needs a proof of its own.
    if position < 4 {
        masks[position as usize] &= only(place);
    }
    masks
}

/// What remains of a cell, nothing where it is past the sets.
pub fn remaining(sets: &[u64], cell: u8) -> u64
    ensures { result ≡ slice_index sets.now cell }
{
    sets.get(cell as usize).copied().unwrap_or(0)
}
