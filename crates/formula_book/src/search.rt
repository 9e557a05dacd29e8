//! Rows of one formula: which it permits.
ghost use Rattle.std.specs.Prelude.{◌≡◌, ℕ, ◌<◌, length, slice_index};
ghost use Rattle.formula_book.specs.Formulas.{GoodRule, assigned, number_at, permits_of, unset};
ghost use Rattle.formula_book.specs.Support.{lists_of};

use crate::book::FormulaBook;
use judge::holds;
use network::cells::are_listed;
use reader::formula::Formula;

impl<'a> FormulaBook<'a> {
    /// Whether a formula permits a row: each place is of its cell's list, and at the numbers there the formula is true.
    pub(crate) fn permits(&self, formula: &Formula, row: &[u8]) -> bool
        requires { GoodRule self.now.nodes.now formula.now }
        ensures { result ≡ permits_of (lists_of self.now.lengths.now self.now.numbers.now) self.now.nodes.now formula.now row.now }
    {
        let cells = &formula.cells[..formula.width as usize];
        are_listed(row, cells, self.lengths)
            && holds(self.nodes, formula.root, &self.assigned(cells, row))
    }

    /// The cells' numbers at a row's places, 0 at other cells.
    fn assigned(&self, cells: &[u8], row: &[u8]) -> [i32; 64]
        requires { (k : ℕ) → k < length cells.now → slice_index cells.now k < 64 }
        ensures { result ≡ assigned (lists_of self.now.lengths.now self.now.numbers.now) unset cells.now row.now }
    {
        let mut numbers = [0; 64];
        for (cell, place) in cells.iter().zip(row) {
            numbers[*cell as usize] = self.number(*cell, *place);
        }
        numbers
    }

    // One line, as `report` has it of a cell's place and `judge` of a cell: of the crates below them none is about lists.
    /// The number at a place of a cell, 0 where it is missing.
    fn number(&self, cell: u8, place: u8) -> i32
        ensures { result ≡ number_at (lists_of self.now.lengths.now self.now.numbers.now) cell place }
    {
        let index = 64 * cell as usize + place as usize;
        self.numbers.get(index).copied().unwrap_or(0)
    }
}
