//! Any sequence of calls on a session just made, with all that is promised of it.
//! Uses `bits`, `network`, `choosers`, `runs`, `clash`, `calls` and `session`.
#![tactic(auto)]

ghost use Rattle.std.specs.Prelude.{◌≡◌, List, [], ◌∷◌};
ghost use Rattle.calls.specs.Sheet.{sheet};
ghost use Rattle.calls.specs.History.{Did};
ghost use Rattle.calls.specs.Plays.{did, Makes, Plays};
ghost use Rattle.calls.specs.Promise.{FillingsAndCores};
ghost use Rattle.calls.specs.Runs.{StepDone, fresh, PlaysByRuns, Follows};
ghost use Rattle.session.specs.Calls.{sheet_of, lasting_of};
ghost use Rattle.play.specs.Held.{Holds, latest};

use calls::answer::Answer;
use calls::call::Call;
use calls::step::Step;
use choosers::chooser::Chooser;
use network::book::RuleBook;
use session::session::Session;

/// Makes one call.
// Calls are the host's data, so they are an enum and no closures.
fn make<B: RuleBook, C: Chooser>(session: &mut Session<'_, B, C>, step: &mut Step)
    ensures sheet { sheet_of B.RuleBook.meaning session.new ≡ sheet_of B.RuleBook.meaning session.old }
    ensures book { session.new.book ≡ session.old.book }
    ensures makes { (h : List Did) → Holds session.old.lengths.now h session.old.table
        → Makes (sheet_of B.RuleBook.meaning session.old) (StepDone C.Chooser.meaning (sheet_of B.RuleBook.meaning session.old)) h (lasting_of session.old) step.old step.new (lasting_of session.new)
        × Holds session.old.lengths.now (did step.new ∷ h) session.new.table }
{
    step.answer = match step.call {
        Call::Pin { cell, place } => Answer::from(session.pin(cell, place)),
        Call::Free { cell } => Answer::from(session.free(cell)),
        Call::Switch { rule, on } => Answer::from(session.switch(rule, on)),
        Call::Fit => Answer::from(session.fit(
            &mut step.buffers.work,
            &mut step.buffers.log,
            &mut step.buffers.filling,
        )),
    };
}

/// Makes some calls, one after another.
fn make_all<B: RuleBook, C: Chooser>(session: &mut Session<'_, B, C>, steps: &mut [Step])
    requires { Holds session.old.lengths.now [] session.old.table }
    ensures sheet { sheet_of B.RuleBook.meaning session.new ≡ sheet_of B.RuleBook.meaning session.old }
    ensures book { session.new.book ≡ session.old.book }
    ensures plays { Plays (sheet_of B.RuleBook.meaning session.old) (StepDone C.Chooser.meaning (sheet_of B.RuleBook.meaning session.old)) [] (lasting_of session.old)
        steps.old steps.new (lasting_of session.new) }
    ensures table { Holds session.old.lengths.now (latest [] steps.new) session.new.table }
{
    for step in steps.iter_mut() {
        make(session, step);
    }
}

/// Plays any calls on a session just made over some lists, given by their lengths, a book and a chooser.
///
/// Every call is answered as the calls before it say, every Fit with a filling or a core (`fillings_and_cores`): those of its runs (`runs`), which follow from
/// the lists, the book's meaning, the chooser and the calls (`follows`).
pub fn play<'a, B: RuleBook, C: Chooser>(
    lengths: &'a [u8],
    book: B,
    chooser: C,
    steps: &mut [Step],
) -> Session<'a, B, C>
    ensures fillings_and_cores { FillingsAndCores (sheet lengths.now (B.RuleBook.meaning book)) steps.old steps.new }
    ensures runs { PlaysByRuns C.Chooser.meaning (sheet lengths.now (B.RuleBook.meaning book)) [] (fresh chooser) steps.old steps.new (lasting_of result) }
    ensures follows { Follows C.Chooser.meaning (sheet lengths.now (B.RuleBook.meaning book)) (fresh chooser) steps.old steps.new (lasting_of result) }
    ensures sheet { sheet_of B.RuleBook.meaning result ≡ sheet lengths.now (B.RuleBook.meaning book) }
    ensures book { result.book ≡ book }
    ensures table { Holds lengths.now (latest [] steps.new) result.table }
{
    let mut session = Session::new(lengths, book, chooser);
    make_all(&mut session, steps);
    session
}
