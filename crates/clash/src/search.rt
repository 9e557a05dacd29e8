//! From a clash to its core.
ghost use Rattle.std.specs.Prelude.{◌≡◌, ℕ, ◌+◌, ◌*◌, ◌<◌, ◌≤◌, ◌↔◌, List, length, slice_set, IsSome, IfSome, IfNone};
ghost use Rattle.bits.specs.Sets.{Subset, members, size};
ghost use Rattle.runs.specs.declared.line.Line.{Line};
ghost use Rattle.cores.specs.Fit.{with_first, Shrinks, Halves, Rounds};
ghost use Rattle.readiness.specs.Room.{Room};
ghost use Rattle.clash.specs.Running.{lasting};
ghost use Rattle.clash.specs.Logged.{Logged};
ghost use Rattle.clash.specs.Seeking.{Keeps, lasting_of, Logs};

use crate::core_search::CoreSearch;
use crate::fitted::Fitted;
use crate::masks::{first, nth};
use crate::runner::Runner;
use bits::{count, with};
use readiness::room::is_roomy;
use runs::line::{Line, Verdict};

/// A round: the rules found so far, and how many of the candidates are left.
#[derive(Clone, Copy, Debug, PartialEq, Eq)]
struct Round {
    found: u64,
    candidates: u64,
    left: usize,
}

impl<T: Runner<C>, C> CoreSearch<'_, '_, T, C> {
    /// Runs some rules, and logs the line.
    fn run(&mut self, listed: u64) -> Line
        requires ready { T.Runner.ready self.old.runner.now listed }
        requires line { self.old.lines < length self.old.log.now }
        ensures keeps { Keeps self.old self.new }
        ensures lists { result.listed ≡ listed }
        ensures steps { T.Runner.runs self.old.runner.now (lasting_of self.old) result self.new.sets.now (lasting_of self.new) }
        ensures logs { self.new.log.now ≡ slice_set self.old.log.now self.old.lines result }
        ensures counts { self.new.lines ≡ self.old.lines + 1 }
    {
        let Some(line) = self
            .runner
            .run(self.chooser, self.weights, listed, self.work, self.sets)
        else {
            unreachable!()
        };
        self.log[self.lines] = line;
        self.lines += 1;
        line
    }

    /// Runs what the run before used, as long as that was not all that it listed; the rules of the last run are the candidates for the core.
    fn shrink(&mut self, opening: Line) -> u64
        requires ready { T.Runner.ready self.old.runner.now opening.listed }
        requires inside { Subset opening.used opening.listed }
        requires clash { T.Runner.fits self.old.runner.now opening.used → ⊥ }
        requires lines { self.old.lines + size opening.listed ≤ length self.old.log.now }
        ensures keeps { Keeps self.old self.new }
        ensures steps { (ls : List Line) × Logs self.old ls self.new
            × Shrinks (T.Runner.runs self.old.runner.now) opening (lasting_of self.old) ls result (lasting_of self.new) }
    {
        let mut line = opening;
        while line.used != line.listed {
            line = self.run(line.used);
        }
        line.listed
    }

    /// The least place, from 1, such that the found rules and the candidates up to it clash.
    fn halve(&mut self, round: Round) -> usize
        requires ready { (j : ℕ) → T.Runner.ready self.old.runner.now (with_first round.found j (members round.candidates)) }
        requires some { 1 ≤ round.left }
        requires few { round.left ≤ 64 }
        requires lines { self.old.lines + 6 ≤ length self.old.log.now }
        ensures least { 1 ≤ result }
        ensures most { result ≤ round.left }
        ensures short { self.new.lines ≤ self.old.lines + 6 }
        ensures keeps { Keeps self.old self.new }
        ensures steps { (ls : List Line) × Logs self.old ls self.new
            × Halves (T.Runner.runs self.old.runner.now) round.found (members round.candidates) 1 round.left (lasting_of self.old) ls result (lasting_of self.new) }
    {
        let mut low = 1;
        let mut high = round.left;
        while low < high {
            let middle = (low + high) / 2;
            let tried = self.run(round.found | first(round.candidates, middle));
            match tried.verdict {
                Verdict::Unmet => high = middle,
                Verdict::Met => low = middle + 1,
            }
        }
        low
    }

    /// Rounds: the found rules alone, then one more of the candidates, until the found rules clash; these are the core.
    fn rounds(&mut self, candidates: u64) -> u64
        requires ready { T.Runner.ready self.old.runner.now candidates }
        requires clash { T.Runner.fits self.old.runner.now candidates → ⊥ }
        requires lines { self.old.lines + 1 + 7 * size candidates ≤ length self.old.log.now }
        ensures inside { self.new.lines ≤ length self.new.log.now }
        ensures keeps { Keeps self.old self.new }
        ensures steps { (ls : List Line) × Logs self.old ls self.new
            × Rounds (T.Runner.runs self.old.runner.now) (members candidates) 0 (size candidates) (lasting_of self.old) ls result (lasting_of self.new) }
    {
        let mut found = 0;
        let mut left = count(candidates) as usize;
        'rounds: loop {
            let alone = self.run(found);
            if let Verdict::Unmet = alone.verdict {
                return found;
            }
            let round = Round {
                found,
                candidates,
                left,
            };
            left = self.halve(round) - 1;
            let Some(rule) = nth(candidates, left) else {
                unreachable!()
            };
            found = with(found, rule);
        }
    }

    /// One run of the rules that are on, and at a clash the search for its core.
    fn solve(&mut self, on: u64) -> Fitted
        requires ready { T.Runner.ready self.old.runner.now on }
        requires first { self.old.lines ≡ 0 }
        requires lines { 450 ≤ length self.old.log.now }
        ensures keeps { Keeps self.old self.new }
        ensures logged { Logged (T.Runner.runs self.old.runner.now) (T.Runner.fits self.old.runner.now) on (lasting_of self.old) self.old.log.now
            result (lasting_of self.new) self.new.sets.now self.new.log.now }
    {
        let line = self.run(on);
        if let Verdict::Met = line.verdict {
            return Fitted {
                lines: 1,
                core: None,
            };
        }
        let candidates = self.shrink(line);
        let core = self.rounds(candidates);
        Fitted {
            lines: self.lines,
            core: Some(core),
        }
    }
}

/// A Fit of the rules that are on, where these may be run and it has its buffers; else `None`, and nothing is touched.
/// It is one run, and at a clash the search for its core. Where that run finds a filling, the sets are those that it left.
// The host lends each buffer, so they come one by one; `CoreSearch` holds them from here on.
pub fn fit<T: Runner<C>, C>(
    runner: &T,
    chooser: &mut C,
    weights: &mut [u32],
    work: &mut [u64],
    sets: &mut [u64],
    on: u64,
    log: &mut [Line],
) -> Option<Fitted>
    ensures made { IsSome result ↔ Room (T.Runner.cells runner.now) weights.old work.old sets.old × T.Runner.ready runner.now on × 450 ≤ length log.old }
    ensures untouched { IfNone result ((chooser.new ≡ chooser.old) × (weights.new ≡ weights.old) × (work.new ≡ work.old) × (sets.new ≡ sets.old) × (log.new ≡ log.old)) }
    ensures logged { IfSome result (λ f. Logged (T.Runner.runs runner.now) (T.Runner.fits runner.now) on (lasting chooser.old weights.old) log.old
        f (lasting chooser.new weights.new) sets.new log.new) }
{
    if !is_roomy(runner.cell_count(), weights, work, sets)
        || !runner.is_ready(on)
        || log.len() < 450
    {
        return None;
    }
    let mut search = CoreSearch {
        runner,
        chooser,
        weights,
        work,
        sets,
        log,
        lines: 0,
    };
    Some(search.solve(on))
}
