//! Which cells are open.
ghost use Rattle.std.specs.Prelude.{◌≡◌};
ghost use Rattle.choosers.specs.Choice.{open?};

use crate::chooser::Figure;

/// Whether two or more places of a cell remain; figures after the 64th belong to no cell.
pub fn is_open(figures: &[Figure], cell: u8) -> bool
    ensures { result ≡ open? figures.now cell }
{
    cell < 64
        && figures
            .get(cell as usize)
            .is_some_and(|figure| figure.is_open())
}
