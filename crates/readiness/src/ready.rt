//! Whether rules may be run.
ghost use Rattle.std.specs.Prelude.{ℕ, ◌<◌, Decides};
ghost use Rattle.bits.specs.Sets.{In};
ghost use Rattle.runs.specs.Law.{Ready, Full};

use crate::suits::suits;
use bits::has;
use network::book::RuleBook;

/// Whether every rule of a set is one of the first.
fn are_known(rules: u64, count: u16) -> bool
    ensures { Decides result ((r : ℕ) → In rules r → r < count) }
{
    // A loop: as an `all` chain the proof did not close, since the test is itself a fact.
    for rule in 0..64u8 {
        if has(rules, rule) && u16::from(rule) >= count {
            return false;
        }
    }
    true
}

/// Whether some place remains at each cell.
fn are_full(sets: &[u64]) -> bool
    ensures { Decides result (Full sets.now) }
{
    sets.iter().all(|places| *places != 0)
}

/// Whether the listed rules may be run from the starting sets: there are at most 64 cells, the book suits them and has these rules, and each set has a place.
pub fn is_ready<B: RuleBook>(book: &B, start: &[u64], listed: u64) -> bool
    ensures { Decides result (Ready (B.meaning book.now) start.now listed) }
{
    start.len() <= 64
        && suits(book, start.len())
        && are_known(listed, book.count())
        && are_full(start)
}
