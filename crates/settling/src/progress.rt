//! A run under way, and how far it has come.
ghost use Rattle.std.specs.Prelude.{◌≤◌, length};
ghost use Rattle.runs.specs.Law.{Suits};

use network::book::RuleBook;

/// A run under way: a rule book and which of its rules are listed, the places that remain at each cell, the rules used so far, and the weight of
/// each of 64 rules. The host lends the book, the sets and the weights.
#[derive(Drop)]
pub struct Progress<'a, B: RuleBook> {
    pub book: &'a B,
    pub rules: u64,
    pub sets: &'a mut [u64],
    pub used: u64,
    pub weights: &'a mut [u32],
    pub ghost suits: { Suits (B.meaning book.now) (length sets.now) },
    pub ghost weighted: { 64 ≤ length weights.now },
}

impl<B: RuleBook> Progress<'_, B> {
    ghost use Rattle.std.specs.Prelude.{◌<◌};
    ghost use Rattle.settling.specs.Kept.{Kept, Weighs};

    // `rule < 64` is a clause, as in revisions.
    /// Adds one to the weight of a rule, which stops at the largest number.
    pub(crate) fn weigh(&mut self, rule: u16)
        requires { rule < 64 }
        ensures kept { Kept self.old self.new }
        ensures more { Weighs rule self.old self.new }
    {
        self.weights[rule as usize] = self.weights[rule as usize].saturating_add(1);
    }
}
