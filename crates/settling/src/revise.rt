//! Revisions: of a place, of the places at a position, and of a rule's positions.
ghost use Rattle.std.specs.Prelude.{◌≡◌, ℕ, ◌-◌, ◌<◌, ◌≤◌, length, Decides, MatchResult};
ghost use Rattle.bits.specs.Sets.{In};
ghost use Rattle.network.specs.Book.{Supported};
ghost use Rattle.runs.specs.Settle.{cell_at, Revises, Empties, Position, PositionFails, Takes, TakesFails};
ghost use Rattle.settling.specs.Kept.{state_of, Kept};
ghost use Rattle.settling.specs.Report.{Report};

use crate::emptied::Emptied;
use crate::progress::Progress;
use bits::{has, with, without};
use network::book::RuleBook;

/// One past the highest of a set of places, 0 where it is empty.
fn past_highest(places: u64) -> u8
    ensures few { result ≤ 64 }
    ensures above { (v : ℕ) → result ≤ v → In places v → ⊥ }
    ensures highest { 0 < result → In places (result - 1) }
{
    64 - places.leading_zeros() as u8
}

// `rule < 64` stays a clause: a book is asked by a plain number, so a type for a small one would be taken apart at each question. What is said of a cell
// stays, since its number is asked for once for all its places; and `Kept`, since it compares what is held before and after.
impl<B: RuleBook> Progress<'_, B> {
    /// Whether a place at a position of a rule has support.
    fn has_support(&self, rule: u16, position: u8, place: u8) -> bool
        ensures { Decides result (Supported ((B.meaning self.now.book.now).rule rule) position place self.now.sets.now) }
    {
        self.book.supported(rule, position, place, self.sets)
    }

    /// Removes a place that remains without support, and marks the rule used; says whether it did. A rule that empties a cell weighs more.
    fn revise_place(
        &mut self,
        rule: u16,
        position: u8,
        cell: u8,
        place: u8,
    ) -> Result<bool, Emptied>
        requires few { rule < 64 }
        requires small { place < 64 }
        requires there { cell ≡ cell_at (B.meaning self.old.book.now) rule position }
        requires within { cell < length self.old.sets.now }
        ensures kept { Kept self.old self.new }
        ensures steps { MatchResult result
            (λ removed. Revises (B.meaning self.old.book.now) rule position place (state_of self.old) (state_of self.new) × Report removed (state_of self.old) (state_of self.new))
            (λ e. (e.rule ≡ rule) × Empties (B.meaning self.old.book.now) rule position place (state_of self.old) (state_of self.new)) }
    {
        let left = self.sets[cell as usize];
        if !has(left, place) {
            return Ok(false);
        }
        if self.has_support(rule, position, place) {
            return Ok(false);
        }
        let rest = without(left, place);
        self.sets[cell as usize] = rest;
        self.used = with(self.used, rule as u8);
        if rest == 0 {
            self.weigh(rule);
            return Err(Emptied { rule });
        }
        Ok(true)
    }

    /// The places at one position, from the lowest; says whether any was removed. Those past the highest that remains are not looked at.
    fn revise_position(&mut self, rule: u16, position: u8) -> Result<bool, Emptied>
        requires few { rule < 64 }
        requires within { cell_at (B.meaning self.old.book.now) rule position < length self.old.sets.now }
        ensures kept { Kept self.old self.new }
        ensures steps { MatchResult result
            (λ removed. Position (B.meaning self.old.book.now) rule position (state_of self.old) (state_of self.new) × Report removed (state_of self.old) (state_of self.new))
            (λ e. (e.rule ≡ rule) × PositionFails (B.meaning self.old.book.now) rule position (state_of self.old) (state_of self.new)) }
    {
        let cell = self.book.cell(rule, position);
        let mut removed = false;
        for place in 0..past_highest(self.sets[cell as usize]) {
            removed |= self.revise_place(rule, position, cell, place)?;
        }
        Ok(removed)
    }

    /// The positions of one rule, in order; says whether any place was removed.
    pub(crate) fn revise_rule(&mut self, rule: u16) -> Result<bool, Emptied>
        requires few { rule < 64 }
        ensures kept { Kept self.old self.new }
        ensures steps { MatchResult result
            (λ removed. Takes (B.meaning self.old.book.now) rule (state_of self.old) (state_of self.new) × Report removed (state_of self.old) (state_of self.new))
            (λ e. (e.rule ≡ rule) × TakesFails (B.meaning self.old.book.now) rule (state_of self.old) (state_of self.new)) }
    {
        let mut removed = false;
        for position in 0..self.book.width(rule) {
            removed |= self.revise_position(rule, position)?;
        }
        Ok(removed)
    }
}
