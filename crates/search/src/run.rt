//! A whole run, and the line that it writes.
ghost use Rattle.std.specs.Prelude.{◌≡◌, ◌↔◌, length, IsSome, IfSome, IfNone};
ghost use Rattle.network.specs.Fillings.{Meetable};
ghost use Rattle.runs.specs.Run.{Searches, Run, line};
ghost use Rattle.runs.specs.Law.{Ready, Right, Fills, OnlyRun};
ghost use Rattle.settling.specs.Kept.{state_of, Kept};
ghost use Rattle.readiness.specs.Room.{Room};
ghost use Rattle.search.specs.Room.{Able};

use crate::explore::explore;
use choosers::chooser::{Chooser, Event};
use network::book::RuleBook;
use readiness::ready::is_ready;
use readiness::room::is_roomy;
use runs::line::{Line, Verdict};
use settling::progress::Progress;

/// Settles the starting sets, and goes on from there: true is a filling.
fn search<B: RuleBook, C: Chooser>(
    progress: &mut Progress<'_, B>,
    chooser: &mut C,
    work: &mut [u64],
) -> bool
    requires { Able progress.old.sets.now (length work.old) }
    ensures kept { Kept progress.old progress.new }
    ensures steps { Searches C.Chooser.meaning (B.RuleBook.meaning progress.old.book.now) progress.old.rules chooser.old (state_of progress.old) result chooser.new (state_of progress.new) }
{
    if progress.settle().is_err() {
        return false;
    }
    explore(progress, chooser, work)
}

/// The line of a run: where it found a filling, no rule is used.
fn line_of(listed: u64, found: bool, used: u64) -> Line
    ensures { result ≡ line listed found used }
{
    let (used, verdict) = if found {
        (0, Verdict::Met)
    } else {
        (used, Verdict::Unmet)
    };
    Line {
        listed,
        used,
        verdict,
    }
}

// The host lends each buffer, so here and below they come one by one.
/// A run that may be made.
fn run_ready<B: RuleBook, C: Chooser>(
    book: &B,
    chooser: &mut C,
    weights: &mut [u32],
    start: &[u64],
    listed: u64,
    work: &mut [u64],
    sets: &mut [u64],
) -> Line
    requires ready { Ready (B.RuleBook.meaning book.now) start.now listed }
    requires room { Room (length start.now) weights.old work.old sets.old }
    ensures steps { Run C.Chooser.meaning (B.RuleBook.meaning book.now) start.now listed chooser.old weights.old result chooser.new weights.new sets.new }
    ensures only { OnlyRun C.Chooser.meaning (B.RuleBook.meaning book.now) start.now listed chooser.old weights.old result chooser.new weights.new sets.new }
    ensures lists { result.listed ≡ listed }
    ensures right { Right (Meetable (B.RuleBook.meaning book.now) start.now) result }
    ensures fills { result.verdict ≡ Verdict.Met → Fills (B.RuleBook.meaning book.now) start.now listed sets.new }
{
    chooser.tell(Event::Start);
    sets.copy_from_slice(start);
    let mut progress = Progress {
        book,
        rules: listed,
        sets,
        used: 0,
        weights,
    };
    let found = search(&mut progress, chooser, work);
    line_of(listed, found, progress.used)
}

/// A run of the listed rules from the starting sets, where it is ready and has its buffers; else `None`, and nothing is touched.
/// Where some filling meets the rules, the sets left are a filling, with one place at each cell.
pub fn run<B: RuleBook, C: Chooser>(
    book: &B,
    chooser: &mut C,
    weights: &mut [u32],
    start: &[u64],
    listed: u64,
    work: &mut [u64],
    sets: &mut [u64],
) -> Option<Line>
    ensures made { IsSome result ↔ Ready (B.RuleBook.meaning book.now) start.now listed × Room (length start.now) weights.old work.old sets.old }
    ensures untouched { IfNone result ((chooser.new ≡ chooser.old) × (weights.new ≡ weights.old) × (work.new ≡ work.old) × (sets.new ≡ sets.old)) }
    ensures steps { IfSome result (λ l. Run C.Chooser.meaning (B.RuleBook.meaning book.now) start.now listed chooser.old weights.old l chooser.new weights.new sets.new) }
    ensures only { IfSome result (λ l. OnlyRun C.Chooser.meaning (B.RuleBook.meaning book.now) start.now listed chooser.old weights.old l chooser.new weights.new sets.new) }
    ensures lists { IfSome result (λ l. l.listed ≡ listed) }
    ensures right { IfSome result (λ l. Right (Meetable (B.RuleBook.meaning book.now) start.now) l) }
    ensures fills { IfSome result (λ l. l.verdict ≡ Verdict.Met → Fills (B.RuleBook.meaning book.now) start.now listed sets.new) }
{
    if !is_ready(book, start, listed) || !is_roomy(start.len(), weights, work, sets) {
        return None;
    }
    Some(run_ready(book, chooser, weights, start, listed, work, sets))
}
