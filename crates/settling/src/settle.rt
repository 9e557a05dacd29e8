//! Sweeps of the listed rules, until nothing is removed or a cell is empty.
ghost use Rattle.std.specs.Prelude.{◌≡◌, ◌<◌, ◌≤◌, length, sum, MatchResult};
ghost use Rattle.runs.specs.Settle.{Sweep, SweepFails, Settles, Fails};
ghost use Rattle.runs.specs.Law.{Full, Settled, Clash, OnlySettles, OnlyFails};
ghost use Rattle.settling.specs.Kept.{state_of, Kept};
ghost use Rattle.settling.specs.Report.{Report};

use crate::emptied::Emptied;
use crate::progress::Progress;
use bits::has;
use network::book::RuleBook;

impl<B: RuleBook> Progress<'_, B> {
    /// The listed rules in rising number; says whether any place was removed.
    fn sweep(&mut self) -> Result<bool, Emptied>
        ensures kept { Kept self.old self.new }
        ensures steps { MatchResult result
            (λ removed. Sweep (B.meaning self.old.book.now) self.old.rules (state_of self.old) (state_of self.new) × Report removed (state_of self.old) (state_of self.new))
            (λ e. SweepFails (B.meaning self.old.book.now) self.old.rules e.rule (state_of self.old) (state_of self.new)) }
    {
        let mut removed = false;
        for rule in 0..self.book.count() {
            if has(self.rules, rule as u8) {
                removed |= self.revise_rule(rule)?;
            }
        }
        Ok(removed)
    }

    /// Settles the sets under the listed rules: sweeps until one removes nothing, or a rule empties a cell and weighs more.
    pub fn settle(&mut self) -> Result<(), Emptied>
        ensures kept { Kept self.old self.new }
        ensures steps { MatchResult result
            (λ _. Settles (B.meaning self.old.book.now) self.old.rules (state_of self.old) (state_of self.new))
            (λ e. Fails (B.meaning self.old.book.now) self.old.rules e.rule (state_of self.old) (state_of self.new)) }
        ensures only { MatchResult result
            (λ _. OnlySettles (B.meaning self.old.book.now) self.old.rules (state_of self.old) (state_of self.new))
            (λ e. OnlyFails (B.meaning self.old.book.now) self.old.rules e.rule (state_of self.old) (state_of self.new)) }
        ensures law { MatchResult result
            (λ _. Full self.old.sets.now → Settled (B.meaning self.old.book.now) self.old.rules (state_of self.old) (state_of self.new))
            (λ _. Clash (B.meaning self.old.book.now) self.old.rules (state_of self.old) (state_of self.new)) }
        ensures no_more { sum self.new.sets.now ≤ sum self.old.sets.now }
    {
        while self.sweep()? {}
        Ok(())
    }
}
