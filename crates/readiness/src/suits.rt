//! Whether a book suits some cells.
ghost use Rattle.std.specs.Prelude.{ℕ, ◌<◌, length, Decides};
ghost use Rattle.runs.specs.Settle.{cell_at};
ghost use Rattle.runs.specs.Law.{Suits};

use network::book::RuleBook;

/// Whether every cell that the rule names is one of the first.
fn is_within<B: RuleBook>(book: &B, rule: u16, cells: usize) -> bool
    ensures { Decides result ((i : ℕ) → i < length ((B.meaning book.now).rule rule).cells → cell_at (B.meaning book.now) rule i < cells) }
{
    (0..book.width(rule)).all(|position| usize::from(book.cell(rule, position)) < cells)
}

/// Whether there are at most 64 rules, and every cell that one of them names is one of the first.
pub fn suits<B: RuleBook>(book: &B, cells: usize) -> bool
    ensures { Decides result (Suits (B.meaning book.now) cells) }
{
    if book.count() > 64 {
        return false;
    }
    // A loop: as an `all` chain the proof did not close, since the test is itself a fact for each position.
    for rule in 0..book.count() {
        if !is_within(book, rule, cells) {
            return false;
        }
    }
    true
}
