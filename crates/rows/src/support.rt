//! The rows book as a rule book.
ghost use Rattle.std.specs.Prelude.{◌≡◌, ◌*◌, ◌≤◌, length, take, drop, slice_index_or, MatchOption};
ghost use Rattle.rows.specs.Rows.{GoodRule, no_rows, rows_book};
ghost use Rattle.rows.specs.RowsLaws.{rows_lawful};

use crate::book::RowsBook;
use crate::rule::{Kind, RowsRule};
use crate::search::{some_stored, some_unstored};
use network::book::RuleBook;
use network::masks::Masks;
use network::tries::allowed;

/// The rows that a rule stores, one after another.
fn stored_rows<'a>(rule: &RowsRule, bytes: &'a [u8]) -> &'a [u8]
    requires { GoodRule rule.now (length bytes.now) }
    ensures { result.now ≡ take (rule.now.count * rule.now.width) (drop rule.now.start bytes.now) }
{
    let start = rule.start as usize;
    &bytes[start..start + rule.count as usize * rule.width as usize]
}

impl<'a> RowsBook<'a> {
    /// The rule of a number.
    fn find(&self, rule: u16) -> Option<&'a RowsRule>
        ensures { MatchOption result (length self.now.rules.now ≤ rule) (λ r. (r.now ≡ slice_index_or self.now.rules.now rule no_rows) × GoodRule r.now (length self.now.bytes.now)) }
    {
        self.rules.get(rule as usize)
    }
}

impl<'a> RuleBook for RowsBook<'a> {
    ghost meaning = { λ b. rows_book b.rules.now b.bytes.now };

    ghost laws = { λ b. rows_lawful b.rules.now b.bytes.now b.ok };

    fn count(&self) -> u16 {
        self.rules.len() as u16
    }

    // Width, cell and the first lines of `supported` are as in a formula book: a trait for what rules and formulas share would have more lines.
    fn width(&self, rule: u16) -> u8 {
        self.find(rule).map_or(0, |rule| rule.width)
    }

    fn cell(&self, rule: u16, position: u8) -> u8 {
        match self.find(rule) {
            Some(rule) if position < rule.width => rule.cells[position as usize],
            _ => 255,
        }
    }

    fn supported(&self, rule: u16, position: u8, place: u8, sets: &[u64]) -> bool {
        let Some(rule) = self.find(rule) else {
            return false;
        };
        if position >= rule.width {
            return false;
        }
        let masks = allowed(rule.cells, position, place, sets);
        let masks = Masks {
            each: &masks[..rule.width as usize],
        };
        let rows = stored_rows(rule, self.bytes);
        match rule.kind {
            Kind::Permitted => some_stored(rows, masks),
            Kind::Forbidden => some_unstored(rows, masks),
        }
    }
}
