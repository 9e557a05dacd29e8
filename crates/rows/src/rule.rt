//! What is stored of a rule.

/// What the stored rows of a rule are.
#[derive(Clone, Copy, Debug, Default, PartialEq, Eq)]
pub enum Kind {
    #[default]
    Permitted,
    Forbidden,
}

/// A rule: of its cells the first `width` count, and of the bytes of all rules it has `count` rows of `width` bytes each, from `start` on.
// It is stored without a heap, so the cells are an array with a count.
#[derive(Clone, Copy, Debug, Default, PartialEq, Eq)]
pub struct RowsRule {
    pub kind: Kind,
    pub width: u8,
    pub cells: [u8; 4],
    pub start: u32,
    pub count: u32,
}
