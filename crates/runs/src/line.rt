//! The line that a run writes.
ghost use Rattle.std.specs.Prelude.{◌≡◌};
ghost use Rattle.runs.specs.Verdict.{number_of};

/// What a run found of the rules that it listed.
#[derive(Clone, Copy, Debug, PartialEq, Eq)]
pub enum Verdict {
    /// Some filling meets them.
    Met = 0,
    /// No filling does: they clash.
    Unmet = 1,
}

impl Verdict {
    /// The number that stands for it, which hosts are promised.
    pub fn number(self) -> u8
        ensures { result ≡ number_of self }
    {
        self as u8
    }
}

/// A run's line: the rules that it listed, those that it used (none where a filling meets them), and what it found.
// Hosts are promised all three, with no rule used at a filling; so `used` stands beside the verdict and not in it.
#[derive(Clone, Copy, Debug, PartialEq, Eq)]
pub struct Line {
    pub listed: u64,
    pub used: u64,
    pub verdict: Verdict,
}
