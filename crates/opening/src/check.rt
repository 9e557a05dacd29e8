//! What Open checks.
ghost use Rattle.std.specs.Prelude.{Decides};
ghost use Rattle.calls.specs.Answers.{said, to_change};
ghost use Rattle.calls.specs.Sheet.{sheet, Listed, Checked};

use calls::refusal::Refusal;
use network::book::RuleBook;
use readiness::suits::suits;

/// Whether there are 1 to 64 lists, each of 1 to 64 places.
fn are_listed(lengths: &[u8]) -> bool
    ensures { Decides result (Listed lengths.now) }
{
    (1..=64).contains(&lengths.len()) && lengths.iter().all(|length| (1..=64).contains(length))
}

/// Whether a session may be opened over the lists, given by their lengths, and the book: the first reason to refuse it.
pub fn check<B: RuleBook>(lengths: &[u8], book: &B) -> Result<(), Refusal>
    ensures { Checked (sheet lengths.now (B.meaning book.now)) (said (to_change result)).number }
{
    if !are_listed(lengths) {
        return Err(Refusal::Lists);
    }
    if book.count() > 64 {
        return Err(Refusal::TooManyRules);
    }
    if !suits(book, lengths.len()) {
        return Err(Refusal::MissingCell);
    }
    Ok(())
}
