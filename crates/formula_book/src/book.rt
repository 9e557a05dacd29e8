//! The stores of a formula book, known to be well formed.
ghost use Rattle.formula_book.specs.Formulas.{WellFormed};

use formulas::node::Node;
use reader::formula::Formula;

/// Stored formulas with their nodes, and the cells' lists: their lengths, and their numbers, 64 places a cell.
/// No value breaks the laws of a rule book, since each is well formed.
#[derive(Clone, Copy)]
pub struct FormulaBook<'a> {
    pub formulas: &'a [Formula],
    pub nodes: &'a [Node],
    pub lengths: &'a [u8],
    pub numbers: &'a [i32],
    ghost ok: { WellFormed nodes.now formulas.now },
}
