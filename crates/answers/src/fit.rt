//! The text of one Fit on a session just made.
ghost use Rattle.std.specs.Prelude.{◌≡◌, ℕ, ◌+◌, ◌*◌, ◌≤◌, List, [], ◌∷◌, ◌++◌, length, pos, IfOk, OnOk, slice_index, slice_index_or, string_bytes};
ghost use Rattle.calls.specs.Sheet.{sheet};
ghost use Rattle.calls.specs.Plays.{sizes};
ghost use Rattle.answers.specs.Answers.{answer_text, fit_sizes, OneFit, FitText, usual, usual_start};

use calls::answer::Answer;
use calls::call::Call;
use calls::step::{Buffers, Step};
use choosers::last_conflict::LastConflict;
use choosers::weighted::Weighted;
use network::book::RuleBook;
use opening::check::check;
use play::play;
use report::{push_clash, push_fits};
use runs::line::{Line, Verdict};
use std::alloc::{AllocError, Global};
use text::push_fault;

/// A step that is still to make a call, with buffers that are long enough for a Fit.
pub fn step(heap: Global, call: Call) -> Result<Step, AllocError>
    ensures { IfOk result (λ s. (s.call ≡ call) × (sizes s.buffers ≡ fit_sizes) × (s.answer ≡ Answer.Done)) }
{
    let line = Line {
        listed: 0,
        used: 0,
        verdict: Verdict::Met,
    };
    let work = vec![in heap; 0u64; 4096]?;
    let log = vec![in heap; line; 450]?;
    let filling = vec![in heap; 0u8; 64]?;
    Ok(Step {
        call,
        buffers: Buffers { work, log, filling },
        answer: Answer::Done,
    })
}

/// A Fit with buffers that are long enough.
pub fn fit_step(heap: Global) -> Result<Step, AllocError>
    ensures one { IfOk result (λ s. OneFit (s ∷ [])) }
    ensures sizes { IfOk result (λ s. sizes s.buffers ≡ fit_sizes) }
{
    step(heap, Call::Fit)
}

/// The text of an answer.
fn push_answer(out: &mut String, cells: u8, numbers: &[i32], step: &Step) -> Result<(), AllocError>
    ensures { OnOk result (string_bytes out.new ≡ string_bytes out.old ++ answer_text cells (λ c. slice_index_or numbers.now (64 * c + slice_index step.now.buffers.filling.items c) (pos 0)) step.now.answer) }
{
    match step.answer {
        Answer::Fitted(fitted) => match fitted.core {
            None => push_fits(out, fitted.lines, cells, numbers, &step.buffers.filling),
            Some(core) => push_clash(out, fitted.lines, core),
        },
        Answer::Refused(refusal) => push_fault(out, refusal.number(), 0),
        Answer::Done => Ok(()),
    }
}

/// Opens a session over the lists and the book, makes one Fit, and tells its answer; or tells why it cannot be opened.
pub(crate) fn push_fit<B: RuleBook + Drop>(
    out: &mut String,
    lengths: &[u8],
    numbers: &[i32],
    book: B,
    steps: &mut [Step],
) -> Result<(), AllocError>
    requires { OneFit steps.old }
    ensures { OnOk result (((t : List ℕ) × (string_bytes out.new ≡ string_bytes out.old ++ t)
        × FitText usual usual_start (sheet lengths.now (B.RuleBook.meaning book)) (λ c v. slice_index_or numbers.now (64 * c + v) (pos 0)) t)) }
{
    if let Err(refusal) = check(lengths, &book) {
        return push_fault(out, refusal.number(), 0);
    }
    let cells = lengths.len() as u8;
    let _ = play(lengths, book, LastConflict::new(Weighted), steps);
    push_answer(out, cells, numbers, &steps[0])
}
