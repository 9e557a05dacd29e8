//! Tries: from settled sets to a filling, or to none.
ghost use Rattle.std.specs.Prelude.{◌≡◌, ◌^◌, ◌≤◌, true, false, length, slice_set, MatchOption};
ghost use Rattle.runs.specs.Settle.{state, out_of};
ghost use Rattle.runs.specs.Figures.{figures_of};
ghost use Rattle.runs.specs.Run.{Chosen, Explores, TryStands, TryFails};
ghost use Rattle.settling.specs.Kept.{state_of, Kept};
ghost use Rattle.search.specs.Room.{Able};
ghost use Rattle.search.specs.Picks.{Picks};

use bits::{lowest, only, without};
use choosers::chooser::{Chooser, Event};
use figures::Cells;
use network::book::RuleBook;
use settling::progress::Progress;

/// A place to try alone at a cell.
#[derive(Clone, Copy, Debug, PartialEq, Eq)]
struct Trial {
    cell: u8,
    place: u8,
}

// Progress, chooser and work come one by one: a try hands on a part of the work buffer, and the others as they are. `Kept` stays a clause, as in
// `settling`. That a filling is found is a `bool`, as `Explores` of specs has it.
/// The try to make next: of the lowest place at the cell that the chooser names, if any is open.
fn next_trial<B: RuleBook, C: Chooser>(progress: &Progress<'_, B>, chooser: &C) -> Option<Trial>
    requires { length progress.now.sets.now ≤ 64 }
    ensures { MatchOption result
        (C.Chooser.meaning.names chooser.now (figures_of (B.RuleBook.meaning progress.now.book.now) progress.now.rules progress.now.sets.now progress.now.weights.now) ≡ 255)
        (λ t. Picks C.Chooser.meaning (B.RuleBook.meaning progress.now.book.now) progress.now.rules chooser.now (state_of progress.now) t.cell t.place) }
{
    let cells = Cells {
        book: progress.book,
        listed: progress.rules,
        weights: progress.weights,
        sets: progress.sets,
    };
    let cell = cells.choose(chooser);
    if cell == 255 {
        return None;
    }
    let Some(place) = lowest(progress.sets[cell as usize]) else {
        unreachable!()
    };
    Some(Trial { cell, place })
}

/// The sets as they were before a try, without its place.
fn retreat<B: RuleBook>(progress: &mut Progress<'_, B>, before: &[u64], trial: Trial)
    requires long { length progress.old.sets.now ≡ length before.now }
    requires chosen { Chosen before.now trial.cell trial.place }
    ensures kept { Kept progress.old progress.new }
    ensures back { state_of progress.new ≡ state (out_of before.now trial.cell trial.place) progress.old.used progress.old.weights.now }
{
    progress.sets.copy_from_slice(before);
    progress.sets[trial.cell as usize] = without(before[trial.cell as usize], trial.place);
}

/// Keeps the sets from before a try in a frame.
fn keep<B: RuleBook>(progress: &Progress<'_, B>, before: &mut [u64])
    requires { length before.old ≡ length progress.now.sets.now }
    ensures { before.new ≡ progress.now.sets.now }
{
    before.copy_from_slice(progress.sets);
}

/// Tries a place alone: true if it stands to a filling.
#[cycle(attempt_explore)]
fn attempt<B: RuleBook, C: Chooser>(
    progress: &mut Progress<'_, B>,
    chooser: &mut C,
    trial: Trial,
    work: &mut [u64],
) -> bool
    requires able { Able (slice_set progress.old.sets.now trial.cell (2 ^ trial.place)) (length work.old) }
    requires chosen { Chosen progress.old.sets.now trial.cell trial.place }
    ensures kept { Kept progress.old progress.new }
    ensures stood { result ≡ true → TryStands C.Chooser.meaning (B.RuleBook.meaning progress.old.book.now) progress.old.rules chooser.old (state_of progress.old) trial.cell trial.place chooser.new (state_of progress.new) }
    ensures failed { result ≡ false → TryFails C.Chooser.meaning (B.RuleBook.meaning progress.old.book.now) progress.old.rules chooser.old (state_of progress.old) trial.cell trial.place chooser.new (state_of progress.new) }
{
    progress.sets[trial.cell as usize] = only(trial.place);
    if progress.settle().is_ok() {
        chooser.tell(Event::Stood(trial.cell));
        if explore(progress, chooser, work) {
            return true;
        }
    }
    chooser.tell(Event::Failed(trial.cell));
    false
}

/// From settled sets to a filling (true), or to none (false). Each try keeps the sets from before it in a frame of the work buffer.
#[cycle(attempt_explore)]
pub(crate) fn explore<B: RuleBook, C: Chooser>(
    progress: &mut Progress<'_, B>,
    chooser: &mut C,
    work: &mut [u64],
) -> bool
    requires { Able progress.old.sets.now (length work.old) }
    ensures kept { Kept progress.old progress.new }
    ensures steps { Explores C.Chooser.meaning (B.RuleBook.meaning progress.old.book.now) progress.old.rules chooser.old (state_of progress.old) result chooser.new (state_of progress.new) }
{
    'tries: while let Some(trial) = next_trial(progress, chooser) {
        let (before, rest) = work.split_at_mut(progress.sets.len());
        keep(progress, before);
        if attempt(progress, chooser, trial, rest) {
            return true;
        }
        retreat(progress, before, trial);
        if progress.settle().is_err() {
            return false;
        }
    }
    true
}
