//! A book whose flagged rules are turned round.
ghost use Rattle.std.specs.Prelude.{◌≡◌};
ghost use Rattle.network.specs.Book.{BookMeaning, Lawful, flag_at, turned};
ghost use Rattle.network.specs.BookLaws.{turned_lawful};
ghost use Rattle.network.specs.Made.{SameMeetable, SameMet, SamePosition};

use crate::book::RuleBook;

/// The book below, with flags for its rules 0 to 63: where a flag is set, the rule's cells stand in the opposite order, and the places of its rows too.
#[derive(Drop)]
pub struct Turned<B> {
    pub below: B,
    pub flags: [bool; 64],
}

impl<B: RuleBook> Turned<B> {
    /// Whatever the flags, a filling meets a rule of the book made exactly if it meets the rule below (`same`).
    /// So rules can be met together exactly if they can be below (`together`).
    pub fn new(below: B, flags: [bool; 64]) -> Turned<B>
        ensures made { result ≡ record { below = below; flags = flags } }
        ensures same { SameMet (B.RuleBook.meaning below) (turned (flag_at result.flags) (B.RuleBook.meaning result.below)) }
        ensures together { SameMeetable (B.RuleBook.meaning below) (turned (flag_at result.flags) (B.RuleBook.meaning result.below)) }
    {
        Turned { below, flags }
    }
}

impl<B: RuleBook> Turned<B> {
    /// Whether a rule is turned round.
    fn flagged(&self, rule: u16) -> bool
        ensures { result ≡ flag_at self.now.flags rule }
    {
        self.flags.get(rule as usize).copied().unwrap_or(false)
    }

    /// Where the rule below has what stands at a position here; a missing position is missing there too.
    fn position_below(&self, rule: u16, position: u8) -> u8
        ensures { SamePosition ((turned (flag_at self.now.flags) (B.RuleBook.meaning self.now.below)).rule rule) position ((B.RuleBook.meaning self.now.below).rule rule) result }
    {
        let width = self.below.width(rule);
        if self.flagged(rule) && position < width {
            width - 1 - position
        } else {
            position
        }
    }
}

impl<B: RuleBook> RuleBook for Turned<B> {
    ghost meaning = { λ b. turned (flag_at b.flags) (B.RuleBook.meaning b.below) };

    ghost laws = { λ b. turned_lawful (flag_at b.flags) (B.RuleBook.laws b.below) };

    fn count(&self) -> u16 {
        self.below.count()
    }

    fn width(&self, rule: u16) -> u8 {
        self.below.width(rule)
    }

    fn cell(&self, rule: u16, position: u8) -> u8 {
        self.below.cell(rule, self.position_below(rule, position))
    }

    fn supported(&self, rule: u16, position: u8, place: u8, sets: &[u64]) -> bool {
        self.below
            .supported(rule, self.position_below(rule, position), place, sets)
    }
}
