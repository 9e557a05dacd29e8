//! Play under last conflict over weighted.
ghost use Rattle.std.specs.Prelude.{◌≡◌, List, []};
ghost use Rattle.calls.specs.Sheet.{sheet};
ghost use Rattle.calls.specs.Runs.{fresh, PlaysByRuns};
ghost use Rattle.session.specs.Calls.{lasting_of};
ghost use Rattle.answers.specs.Answers.{usual, usual_start};
ghost use Rattle.worked.specs.declared.example.Example.{Example};
ghost use Rattle.worked.specs.Examples.{Worked};

use calls::step::Step;
use choosers::last_conflict::LastConflict;
use choosers::weighted::Weighted;
use network::book::RuleBook;
use play::play;
use session::session::Session;

/// Plays calls on a session just made, under last conflict over weighted: by runs of that chooser, and on each worked sheet as was worked out.
pub fn play_usual<'a, B: RuleBook>(
    lengths: &'a [u8],
    book: B,
    steps: &mut [Step],
) -> Session<'a, B, LastConflict<Weighted>>
    ensures runs { PlaysByRuns usual (sheet lengths.now (B.RuleBook.meaning book)) [] (fresh usual_start) steps.old steps.new (lasting_of result) }
    ensures worked { (x : Example) → Worked x lengths.now (B.RuleBook.meaning book) steps.old steps.new (lasting_of result).weights }
{
    play(lengths, book, LastConflict::new(Weighted), steps)
}
