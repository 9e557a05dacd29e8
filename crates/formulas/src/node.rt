//! Stored nodes of formulas.

/// A whole number to add to a cell's number, as it is written.
#[derive(Clone, Copy, Debug, PartialEq, Eq)]
pub enum Shift {
    Bare,
    Plus(u32),
    Minus(u32),
}

/// One side of a comparison: a number, or a cell's number with a shift.
#[derive(Clone, Copy, Debug, PartialEq, Eq)]
pub enum Side {
    Number(i32),
    Cell(u8, Shift),
}

/// How a comparison compares its sides.
#[derive(Clone, Copy, Debug, PartialEq, Eq)]
pub enum Relation {
    Equal,
    NotEqual,
    Less,
    LessEqual,
    Greater,
    GreaterEqual,
}

/// A node of a formula's tree; children go by their number in the store, which is smaller than their parent's.
// The host lends the store, so children are numbers of its nodes and not boxes.
#[derive(Clone, Copy, Debug, PartialEq, Eq)]
pub enum Node {
    Free,
    Compare(Side, Relation, Side),
    Not(u16),
    And(u16, u16),
    Or(u16, u16),
}
