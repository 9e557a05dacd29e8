//! The text of a session.
ghost use Rattle.std.specs.Prelude.{◌≡◌, ℕ, ◌+◌, ◌^◌, ◌<◌, List, ◌++◌, length, OnOk, string_bytes};
ghost use Rattle.calls.specs.Sheet.{sheet, Checked};
ghost use Rattle.replaying.specs.Lines.{open_line};
ghost use Rattle.replaying.specs.Sessions.{SessionText};

use crate::lines::push_lines;
use crate::steps::steps;
use choosers::last_conflict::LastConflict;
use choosers::weighted::Weighted;
use network::book::RuleBook;
use opening::check::check;
use play::play;
use script::line::Line;
use std::alloc::{AllocError, Global};

/// The number that says whether a session is open: 0, or why not.
fn open_number<B: RuleBook>(lengths: &[u8], book: &B) -> u8
    ensures { Checked (sheet lengths.now (B.RuleBook.meaning book.now)) result }
{
    match check(lengths, book) {
        Ok(()) => 0,
        Err(refusal) => refusal.number(),
    }
}

/// Whether a session is open.
#[tactic(auto, using(text::proofs::Pieces::pieces))]
fn push_open(out: &mut String, number: u8) -> Result<(), AllocError>
    ensures { OnOk result (string_bytes out.new ≡ string_bytes out.old ++ open_line number) }
{
    writeln!(out, "open {number}")
}

/// Makes the calls among some lines on a session just made, and tells their answers.
pub(crate) fn push_session<B: RuleBook + Drop>(
    heap: Global,
    out: &mut String,
    lengths: &[u8],
    book: B,
    first: usize,
    lines: &[Line],
) -> Result<(), AllocError>
    requires { first + length lines.now < 2 ^ 64 }
    ensures { OnOk result ((t : List ℕ) × (string_bytes out.new ≡ string_bytes out.old ++ t) × SessionText (sheet lengths.now (B.RuleBook.meaning book)) first lines.now t) }
{
    push_open(out, open_number(lengths, &book))?;
    let mut steps = steps(heap, lines)?;
    let _ = play(lengths, book, LastConflict::new(Weighted), &mut steps);
    push_lines(out, lengths.len(), first, lines, &steps)
}
