//! One run of all rules.
ghost use Rattle.std.specs.Prelude.{◌≡◌, IfOk};
ghost use Rattle.calls.specs.Sheet.{sheet, Opens};
ghost use Rattle.first_run.specs.FirstRun.{OneRun};

use crate::start::{all_rules, whole_lists};
use choosers::last_conflict::LastConflict;
use choosers::weighted::Weighted;
use network::book::RuleBook;
use runs::line::Line;
use search::run::run;
use std::alloc::{AllocError, Global};

/// A run's line, and the weights and the sets that it left.
#[derive(Drop)]
pub(crate) struct Made {
    pub line: Line,
    pub weights: [u32; 64],
    pub sets: Vec<u64>,
}

/// One run of all rules of a book, from whole lists.
pub(crate) fn one_run<B: RuleBook>(
    heap: Global,
    lengths: &[u8],
    book: &B,
) -> Result<Made, AllocError>
    requires { Opens (sheet lengths.now (B.RuleBook.meaning book.now)) }
    ensures { IfOk result (λ m. OneRun (sheet lengths.now (B.RuleBook.meaning book.now)) m.line m.weights m.sets.items) }
{
    let start = whole_lists(heap, lengths)?;
    let rules = all_rules(book.count());
    let mut work = vec![in heap; 0u64; 4096]?;
    let mut sets = vec![in heap; 0u64; lengths.len()]?;
    let mut weights = [1; 64];
    let mut chooser = LastConflict::new(Weighted);
    let made = run(
        book,
        &mut chooser,
        &mut weights,
        &start,
        rules,
        &mut work,
        &mut sets,
    );
    let Some(line) = made else { unreachable!() };
    Ok(Made {
        line,
        weights,
        sets,
    })
}
