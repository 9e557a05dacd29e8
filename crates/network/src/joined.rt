//! Two books as one.
ghost use Rattle.std.specs.Prelude.{◌≡◌, ℕ, ◌+◌, ◌≤◌, Some, None};
ghost use Rattle.network.specs.Book.{BookMeaning, Lawful, joined, no_rule};
ghost use Rattle.network.specs.declared.joined.Found.TheVariants.{First, Second};
ghost use Rattle.network.specs.BookLaws.{joined_lawful};
ghost use Rattle.network.specs.Made.{BothMet, CountedMet};

use crate::book::RuleBook;

/// The first book's rules, then the second's; the count stops at 65,535.
#[derive(Drop)]
pub struct Joined<A, B> {
    pub first: A,
    pub second: B,
}

impl<A: RuleBook, B: RuleBook> Joined<A, B> {
    /// A filling meets the book made exactly if it meets both books, of the second one as many rules as are counted.
    pub fn new(first: A, second: B) -> Joined<A, B>
        ensures made { result ≡ record { first = first; second = second } }
        ensures both { (A.RuleBook.meaning first).count + (B.RuleBook.meaning second).count ≤ 65535 → BothMet (A.RuleBook.meaning first) (B.RuleBook.meaning second) (joined (A.RuleBook.meaning result.first) (B.RuleBook.meaning result.second)) }
        ensures counted { CountedMet (A.RuleBook.meaning first) (B.RuleBook.meaning second) (joined (A.RuleBook.meaning result.first) (B.RuleBook.meaning result.second)) }
    {
        Joined { first, second }
    }
}

/// The number that a rule has in one of the two books.
#[derive(Clone, Copy, Debug, PartialEq, Eq)]
enum Found {
    First(u16),
    Second(u16),
}

impl<A: RuleBook, B: RuleBook> Joined<A, B> {
    /// Where a rule is found; `None` past the numbers that are counted.
    fn find(&self, rule: u16) -> Option<Found>
        ensures first { (r : ℕ) → result ≡ Some (First r) → (joined (A.RuleBook.meaning self.now.first) (B.RuleBook.meaning self.now.second)).rule rule ≡ (A.RuleBook.meaning self.now.first).rule r }
        ensures second { (r : ℕ) → result ≡ Some (Second r) → (joined (A.RuleBook.meaning self.now.first) (B.RuleBook.meaning self.now.second)).rule rule ≡ (B.RuleBook.meaning self.now.second).rule r }
        ensures none { result ≡ None → (joined (A.RuleBook.meaning self.now.first) (B.RuleBook.meaning self.now.second)).rule rule ≡ no_rule }
    {
        let split = self.first.count();
        if rule < split {
            Some(Found::First(rule))
        } else if rule < u16::MAX {
            Some(Found::Second(rule - split))
        } else {
            None
        }
    }
}

impl<A: RuleBook, B: RuleBook> RuleBook for Joined<A, B> {
    ghost meaning = { λ b. joined (A.RuleBook.meaning b.first) (B.RuleBook.meaning b.second) };

    ghost laws = { λ b. joined_lawful (A.RuleBook.laws b.first) (B.RuleBook.laws b.second) };

    fn count(&self) -> u16 {
        self.first.count().saturating_add(self.second.count())
    }

    fn width(&self, rule: u16) -> u8 {
        match self.find(rule) {
            Some(Found::First(below)) => self.first.width(below),
            Some(Found::Second(below)) => self.second.width(below),
            None => 0,
        }
    }

    fn cell(&self, rule: u16, position: u8) -> u8 {
        match self.find(rule) {
            Some(Found::First(below)) => self.first.cell(below, position),
            Some(Found::Second(below)) => self.second.cell(below, position),
            None => 255,
        }
    }

    fn supported(&self, rule: u16, position: u8, place: u8, sets: &[u64]) -> bool {
        match self.find(rule) {
            Some(Found::First(below)) => self.first.supported(below, position, place, sets),
            Some(Found::Second(below)) => self.second.supported(below, position, place, sets),
            None => false,
        }
    }
}
