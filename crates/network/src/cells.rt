//! The cells that a rule may have, and the places of their lists.
ghost use Rattle.std.specs.Prelude.{◌≡◌, ℕ, ◌<◌, length, Decides, slice_index, ◌≢◌};
ghost use Rattle.network.specs.Cells.{GoodCells, Listed};

/// Whether these are 1 to 4 cells, below 64 and different.
pub fn are_good(cells: &[u8]) -> bool
    ensures { Decides result (GoodCells (length cells.now) cells.now) }
{
    (1..=4).contains(&cells.len()) && (0..cells.len()).all(|at| is_new(cells, at))
}

/// Whether a cell is below 64, and none before it is the same.
fn is_new(cells: &[u8], at: usize) -> bool
    requires { at < length cells.now }
    ensures { Decides result ((slice_index cells.now at < 64) × ((j : ℕ) → j < at → slice_index cells.now j ≢ slice_index cells.now at)) }
{
    let cell = cells[at];
    cell < 64 && !cells[..at].contains(&cell)
}

/// Whether a row has for each cell a place of its list; the lists have these lengths, and a cell past them has no place.
pub fn are_listed(row: &[u8], cells: &[u8], lengths: &[u8]) -> bool
    ensures { Decides result ((length row.now ≡ length cells.now) × Listed lengths.now cells.now row.now) }
{
    row.len() == cells.len()
        && row.iter().zip(cells).all(|(place, cell)| {
            lengths
                .get(*cell as usize)
                .is_some_and(|length| place < length)
        })
}
