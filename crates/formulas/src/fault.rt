//! What can be wrong with a formula's text.
ghost use Rattle.std.specs.Prelude.{◌≡◌};
ghost use Rattle.formulas.specs.Faults.{number};

/// What can be wrong with a formula's text.
#[derive(Clone, Copy, Debug, PartialEq, Eq)]
pub enum Flaw {
    /// A byte outside the grammar, or a text that ends too soon.
    Grammar = 6,
    /// Level 17 would begin.
    Level = 7,
    /// A missing cell, or digits above 1,000,000.
    Range = 8,
    /// No cell, or more than four different ones.
    Cells = 9,
}

impl Flaw {
    /// The number that stands for it, which hosts are promised.
    pub fn number(self) -> u8
        ensures { result ≡ number self }
    {
        self as u8
    }
}

/// A formula's first flaw, and the byte where it is.
#[derive(Clone, Copy, Debug, PartialEq, Eq)]
pub struct FormulaFault {
    pub flaw: Flaw,
    pub offset: usize,
}
