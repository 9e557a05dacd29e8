//! Why a call is refused.
ghost use Rattle.std.specs.Prelude.{◌≡◌};
ghost use Rattle.calls.specs.Answers.{number_of};

/// Why a call is refused.
#[derive(Clone, Copy, Debug, PartialEq, Eq)]
pub enum Refusal {
    /// There are no cells, or more than 64, or a list's length is not 1 to 64.
    Lists = 11,
    /// There are more than 64 rules.
    TooManyRules = 12,
    /// A rule names a cell that does not exist.
    MissingCell = 13,
    /// The session is shut.
    Shut = 14,
    /// There is no such cell.
    NoCell = 15,
    /// The cell has no such place.
    NoPlace = 16,
    /// There is no such rule.
    NoRule = 17,
    /// A buffer is too short.
    ShortBuffer = 18,
}

impl Refusal {
    /// The number that stands for it, which hosts are promised.
    pub fn number(self) -> u8
        ensures { result ≡ number_of self }
    {
        self as u8
    }
}
