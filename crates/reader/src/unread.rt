//! Why a formula is not read.
ghost use Rattle.std.specs.Prelude.{◌≡◌};
ghost use Rattle.reader.specs.Formula.{number, offset};

use formulas::fault::FormulaFault;

/// Why a formula is not read.
#[derive(Clone, Copy, Debug, PartialEq, Eq)]
pub enum Unread {
    /// The store has more than 32,768 nodes, or fewer free ones than the text has bytes.
    NoRoom,
    /// The formula's first fault.
    Fault(FormulaFault),
}

impl Unread {
    /// The number that stands for it, which hosts are promised.
    // By hand: a variant holds a fault, so there are no discriminants.
    pub fn number(self) -> u8
        ensures { result ≡ number self }
    {
        match self {
            Unread::NoRoom => 10,
            Unread::Fault(fault) => fault.flaw.number(),
        }
    }

    /// The byte of the formula where it is, 0 where the store has no room.
    pub fn offset(self) -> usize
        ensures { result ≡ offset self }
    {
        match self {
            Unread::NoRoom => 0,
            Unread::Fault(fault) => fault.offset,
        }
    }
}
