//! What a Fit comes to.
ghost use Rattle.std.specs.Prelude.{◌≡◌, MatchOption};
ghost use Rattle.std.specs.Option.{unwrap_or};

use runs::line::Verdict;

/// The number of its lines, and its core: none where its first run found that some filling meets the rules.
#[derive(Clone, Copy, Debug, PartialEq, Eq)]
pub struct Fitted {
    pub lines: usize,
    pub core: Option<u64>,
}

impl Fitted {
    /// What its first run found: that some filling meets the rules, or that none does.
    pub fn verdict(self) -> Verdict
        ensures { MatchOption self.core (result ≡ Verdict.Met) (λ _. result ≡ Verdict.Unmet) }
    {
        match self.core {
            None => Verdict::Met,
            Some(_) => Verdict::Unmet,
        }
    }

    /// The core as a set of rules, 0 at a filling, as hosts are promised.
    pub fn core_set(self) -> u64
        ensures { result ≡ unwrap_or self.core 0 }
    {
        self.core.unwrap_or(0)
    }
}
