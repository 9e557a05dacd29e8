//! The calls on a session.

/// A call on a session.
#[derive(Clone, Copy, Debug, PartialEq, Eq)]
pub enum Call {
    /// Sets a cell to one place.
    Pin { cell: u8, place: u8 },
    /// Takes a cell's pin off, if any.
    Free { cell: u8 },
    /// Sets a rule on or off.
    Switch { rule: u16, on: bool },
    /// Looks for a filling, or for a core.
    Fit,
}
