//! The stores that a sheet file is read into, which the host lends, and their published sizes.
use formulas::node::Node;
use reader::formula::Formula;
use rows::rule::RowsRule;

/// The longest file.
pub const FILE: usize = 32768;
/// The cells of a sheet.
pub const CELLS: usize = 64;
/// The numbers of all lists, 64 places a cell.
pub const NUMBERS: usize = 4096;
/// The rules of a sheet.
pub const RULES: usize = 64;
/// The places of all stored rows.
pub const PLACES: usize = 32768;

/// What a sheet is read into. The nodes' published size is `reader::formula::NODES`.
#[derive(Drop)]
pub struct Stores<'a> {
    /// The length of each cell's list.
    pub lengths: &'a mut [u8],
    /// The numbers of the lists, 64 places a cell.
    pub numbers: &'a mut [i32],
    /// The rules by rows.
    pub rules: &'a mut [RowsRule],
    /// The places of their rows, one byte each.
    pub places: &'a mut [u8],
    /// The rules by formulas.
    pub formulas: &'a mut [Formula],
    /// The nodes of the formulas.
    pub nodes: &'a mut [Node],
}

/// How much of each store a sheet takes.
// Lengths beside the stores and no collections: hosts lend stores of published sizes.
#[derive(Clone, Copy, Debug, Default, PartialEq, Eq)]
pub struct Extent {
    pub cells: usize,
    pub rules: usize,
    pub places: usize,
    pub formulas: usize,
    pub nodes: usize,
}
