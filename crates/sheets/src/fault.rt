//! What can be wrong with a sheet file, layer by layer; a fault carries the lower one whole.
ghost use Rattle.std.specs.Prelude.{◌≡◌};
ghost use Rattle.sheets.specs.declared.fault.RuleFault.TheVariants.{Formula};
ghost use Rattle.sheets.specs.declared.fault.LoadFault.TheVariants.{Rule};
ghost use Rattle.sheets.specs.Faults.{rule_number, rule_offset, rule_layer, number, layer, offset};

use formulas::fault::FormulaFault;

/// The layer of a file that a fault belongs to.
#[derive(Clone, Copy, Debug, PartialEq, Eq)]
pub enum Layer {
    Field,
    Rule,
    Formula,
}

/// A fault in the content of a field; the number is the byte of the file where it is.
#[derive(Clone, Copy, Debug, PartialEq, Eq)]
pub enum RuleFault {
    /// A cell's list that is not 1 to 64 different numbers within the limits.
    List(usize),
    /// A rows rule that is too short for its cells, or with a wrong kind, width, cell, row or place.
    Rows(usize),
    /// A formula's own fault.
    Formula(FormulaFault),
}

/// A fault of a sheet file; the number is the byte of the file where it is.
#[derive(Clone, Copy, Debug, PartialEq, Eq)]
pub enum LoadFault {
    /// A field that is cut, or no end field.
    Cut(usize),
    /// An unknown or misplaced tag, an end field with content, or a byte after the end.
    Tag(usize),
    /// The 65th cell, or the 65th rule.
    Many(usize),
    /// A file that has more than 32,768 bytes, or a store that is too small.
    Size,
    /// A fault in a field's content.
    Rule(RuleFault),
}

impl RuleFault {
    /// The number that stands for it, which hosts are promised.
    // By hand: the variants hold offsets and other faults, so they have no discriminants.
    pub fn number(self) -> u8
        ensures { result ≡ rule_number self }
    {
        match self {
            RuleFault::List(_) => 3,
            RuleFault::Rows(_) => 5,
            RuleFault::Formula(fault) => fault.flaw.number(),
        }
    }

    /// Its layer.
    pub fn layer(self) -> Layer
        ensures { result ≡ rule_layer self }
    {
        match self {
            RuleFault::List(_) | RuleFault::Rows(_) => Layer::Rule,
            RuleFault::Formula(_) => Layer::Formula,
        }
    }

    /// The byte of the file where it is.
    pub fn offset(self) -> usize
        ensures { result ≡ rule_offset self }
    {
        match self {
            RuleFault::List(offset) | RuleFault::Rows(offset) => offset,
            RuleFault::Formula(fault) => fault.offset,
        }
    }
}

impl LoadFault {
    /// The number that stands for it, which hosts are promised.
    // By hand: the variants hold offsets and other faults, so they have no discriminants.
    pub fn number(self) -> u8
        ensures { result ≡ number self }
    {
        match self {
            LoadFault::Cut(_) => 1,
            LoadFault::Tag(_) => 2,
            LoadFault::Many(_) => 4,
            LoadFault::Size => 10,
            LoadFault::Rule(fault) => fault.number(),
        }
    }

    /// Its layer.
    pub fn layer(self) -> Layer
        ensures { result ≡ layer self }
    {
        match self {
            LoadFault::Cut(_) | LoadFault::Tag(_) | LoadFault::Many(_) | LoadFault::Size =>
                Layer::Field,
            LoadFault::Rule(fault) => fault.layer(),
        }
    }

    /// The byte of the file where it is; 0 where the whole file or a store is refused.
    pub fn offset(self) -> usize
        ensures { result ≡ offset self }
    {
        match self {
            LoadFault::Cut(offset) | LoadFault::Tag(offset) | LoadFault::Many(offset) => offset,
            LoadFault::Size => 0,
            LoadFault::Rule(fault) => fault.offset(),
        }
    }
}

impl From<FormulaFault> for RuleFault {
    ghost from_gives = { λ f r. r ≡ Formula f };

    fn from(fault: FormulaFault) -> Self {
        RuleFault::Formula(fault)
    }
}

impl From<RuleFault> for LoadFault {
    ghost from_gives = { λ f r. r ≡ Rule f };

    fn from(fault: RuleFault) -> Self {
        LoadFault::Rule(fault)
    }
}
