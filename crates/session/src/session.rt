//! A session and its calls.
ghost use Rattle.std.specs.Prelude.{◌≡◌, ℕ, ◌≤◌, length, Decides, MatchResult};
ghost use Rattle.calls.specs.declared.call.Call.TheVariants.{Pin, Free, Switch};
ghost use Rattle.calls.specs.declared.refusal.Refusal.{Refusal};
ghost use Rattle.calls.specs.Answers.{to_change, to_fit};
ghost use Rattle.calls.specs.Sheet.{Opens, Enough};
ghost use Rattle.network.specs.Fillings.{Meetable};
ghost use Rattle.runs.specs.Law.{Ready};
ghost use Rattle.clash.specs.Running.{lasting};
ghost use Rattle.clash.specs.Logged.{Logged};
ghost use Rattle.calls.specs.Runs.{Ran};
ghost use Rattle.session.specs.Calls.{sheet_of, lasting_of, sizes_of, Made, Changed, FitCalled, Solved};

use crate::start::{rules_on, set_starts, write_lowest};
use crate::table::Table;
use crate::task::Task;
use calls::refusal::Refusal;
use choosers::chooser::Chooser;
use clash::fitted::Fitted;
use clash::search::fit;
use network::book::RuleBook;
use opening::check::check;
use runs::line::Line;

/// A session over the lists of some cells, given by their lengths, a rule book and a cell chooser.
#[derive(Drop)]
pub struct Session<'a, B, C> {
    lengths: &'a [u8],
    book: B,
    chooser: C,
    table: Table,
}

/// Whether the buffers are long enough for a Fit.
// The host lends each, so here and in a Fit they come one by one.
fn are_enough(work: &[u64], log: &[Line], filling: &[u8]) -> bool
    ensures { Decides result (Enough (sizes_of work.now log.now filling.now)) }
{
    work.len() >= 4096 && log.len() >= 450 && filling.len() >= 64
}

impl<'a, B, C> Session<'a, B, C> {
    /// A session just made: no pins, every rule on, and 1 as the weight of each rule. It is shut where `check` refuses what it is made of.
    pub fn new(lengths: &'a [u8], book: B, chooser: C) -> Self
        ensures { Made lengths.now book chooser result }
    {
        let table = Table {
            pins: [None; 64],
            switches: [true; 64],
            weights: [1; 64],
        };
        Session {
            lengths,
            book,
            chooser,
            table,
        }
    }

    /// The weight of each of 64 rules, as the Fits so far left it.
    pub fn weights(&self) -> &[u32; 64]
        ensures { result.now ≡ (lasting_of self.now).weights }
    {
        &self.table.weights
    }
}

impl<B: RuleBook, C: Chooser> Session<'_, B, C> {
    /// Refuses where the session is shut. That is worked out anew from the lists and the book at every call, so there is no flag that could say otherwise.
    fn opened(&self) -> Result<(), Refusal>
        ensures { MatchResult result (λ _. Opens (sheet_of B.RuleBook.meaning self.now)) (λ e. (e ≡ Refusal.Shut) × (Opens (sheet_of B.RuleBook.meaning self.now) → ⊥)) }
    {
        check(self.lengths, &self.book).map_err(|_| Refusal::Shut)
    }

    /// Sets a cell to one place, in the place of an earlier pin.
    pub fn pin(&mut self, cell: u8, place: u8) -> Result<(), Refusal>
        ensures { Changed B.RuleBook.meaning (Pin cell place) self.old (to_change result) self.new }
    {
        self.opened()?;
        let length = self.lengths.get(cell as usize).ok_or(Refusal::NoCell)?;
        if place >= *length {
            return Err(Refusal::NoPlace);
        }
        self.table.pins[cell as usize] = Some(place);
        Ok(())
    }

    /// Takes a cell's pin off, if there is one.
    pub fn free(&mut self, cell: u8) -> Result<(), Refusal>
        ensures { Changed B.RuleBook.meaning (Free cell) self.old (to_change result) self.new }
    {
        self.opened()?;
        if cell as usize >= self.lengths.len() {
            return Err(Refusal::NoCell);
        }
        self.table.pins[cell as usize] = None;
        Ok(())
    }

    /// Sets a rule on or off.
    pub fn switch(&mut self, rule: u16, on: bool) -> Result<(), Refusal>
        ensures { Changed B.RuleBook.meaning (Switch rule on) self.old (to_change result) self.new }
    {
        self.opened()?;
        if rule >= self.book.count() {
            return Err(Refusal::NoRule);
        }
        self.table.switches[rule as usize] = on;
        Ok(())
    }

    /// Looks for a filling that keeps the pins and meets the rules that are on, or for a core of these.
    /// It wants 4,096 numbers to work with, 450 lines and 64 bytes; of these, a filling takes one for each cell.
    pub fn fit(
        &mut self,
        work: &mut [u64],
        log: &mut [Line],
        filling: &mut [u8],
    ) -> Result<Fitted, Refusal>
        ensures { FitCalled B.RuleBook.meaning C.Chooser.meaning self.old work.old log.old filling.old (to_fit result) self.new work.new log.new filling.new }
    {
        self.opened()?;
        if !are_enough(work, log, filling) {
            return Err(Refusal::ShortBuffer);
        }
        let cells = self.lengths.len();
        let mut start = [0; 64];
        let mut sets = [0; 64];
        Ok(self.solve(
            &mut start[0..cells],
            work,
            &mut sets[0..cells],
            log,
            filling,
        ))
    }

    /// A Fit that is not refused.
    fn solve(
        &mut self,
        start: &mut [u64],
        work: &mut [u64],
        sets: &mut [u64],
        log: &mut [Line],
        filling: &mut [u8],
    ) -> Fitted
        requires opens { Opens (sheet_of B.RuleBook.meaning self.old) }
        requires starts { length start.old ≡ length self.old.lengths.now }
        requires work { 4096 ≤ length work.old }
        requires sets { length sets.old ≡ length self.old.lengths.now }
        requires log { 450 ≤ length log.old }
        requires filling { 64 ≤ length filling.old }
        ensures { Solved B.RuleBook.meaning C.Chooser.meaning self.old log.old filling.old result self.new log.new filling.new }
    {
        set_starts(self.lengths, &self.table.pins, start);
        let on = rules_on(&self.table.switches, self.book.count());
        let task = Task {
            book: &self.book,
            start,
        };
        let Some(fitted) = fit(
            &task,
            &mut self.chooser,
            &mut self.table.weights,
            work,
            sets,
            on,
            log,
        ) else {
            unreachable!()
        };
        if fitted.core.is_none() {
            write_lowest(sets, filling);
        }
        fitted
    }
}
