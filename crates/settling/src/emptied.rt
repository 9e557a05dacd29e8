//! How settling fails.

/// Settling fails: this rule emptied a cell.
#[derive(Clone, Copy, Debug, PartialEq, Eq)]
pub struct Emptied {
    pub rule: u16,
}
