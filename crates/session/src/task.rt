//! Runs over a book from given starting sets.
ghost use Rattle.std.specs.Prelude.{length};
ghost use Rattle.network.specs.Fillings.{Meetable};
ghost use Rattle.runs.specs.Law.{Ready};
ghost use Rattle.calls.specs.Runs.{Ran};
ghost use Rattle.calls.proofs.RunLaws.{ran_laws};

use choosers::chooser::Chooser;
use clash::runner::Runner;
use network::book::RuleBook;
use readiness::ready::is_ready;
use runs::line::Line;
use search::run::run;

/// A book, and the set that each cell starts a run with.
#[derive(Drop)]
pub struct Task<'a, B> {
    pub book: &'a B,
    pub start: &'a [u64],
}

impl<B: RuleBook, C: Chooser> Runner<C> for Task<'_, B> {
    ghost cells = { λ t. length t.start.now };

    ghost ready = { λ t a. Ready (B.RuleBook.meaning t.book.now) t.start.now a };

    ghost fits = { λ t a. Meetable (B.RuleBook.meaning t.book.now) t.start.now a };

    ghost runs = { λ t. Ran C.Chooser.meaning (B.RuleBook.meaning t.book.now) t.start.now };

    ghost laws = { λ t. ran_laws C.Chooser.meaning C.Chooser.laws (B.RuleBook.meaning t.book.now) (B.RuleBook.laws t.book.now) t.start.now };

    fn cell_count(&self) -> usize {
        self.start.len()
    }

    fn is_ready(&self, listed: u64) -> bool {
        is_ready(self.book, self.start, listed)
    }

    fn run(
        &self,
        chooser: &mut C,
        weights: &mut [u32],
        listed: u64,
        work: &mut [u64],
        sets: &mut [u64],
    ) -> Option<Line> {
        run(self.book, chooser, weights, self.start, listed, work, sets)
    }
}
