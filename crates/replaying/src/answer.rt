//! The text of one call's answer.
ghost use Rattle.std.specs.Prelude.{◌≡◌, [], ◌∷◌, ◌++◌, take, codes, vec_items, OnOk, string_bytes};
ghost use Rattle.std.specs.List.{flat_map};
ghost use Rattle.formulas.specs.Tree.{numeral};
ghost use Rattle.run_lines.specs.Lines.{log_line, numbers_line};
ghost use Rattle.replaying.specs.Lines.{verdict_of, fit_line, filling_text, call_text, call_line, answer_text};

use calls::answer::Answer;
use calls::call::Call;
use calls::step::{Buffers, Step};
use clash::fitted::Fitted;
use run_lines::{push_log_line, push_set};
use runs::line::Line;
use std::alloc::AllocError;
use text::part;

/// The places of a filling, a blank before each.
fn push_places(out: &mut String, places: &[u8]) -> Result<(), AllocError>
    ensures { OnOk result (string_bytes out.new ≡ string_bytes out.old ++ flat_map (λ v. 32 ∷ numeral v) places.now) }
{
    for place in places {
        write!(out, " {place}")?;
    }
    Ok(())
}

/// The line of a filling.
#[tactic(auto, using(text::proofs::Pieces::pieces))]
fn push_filling(out: &mut String, places: &[u8]) -> Result<(), AllocError>
    ensures { OnOk result (string_bytes out.new ≡ string_bytes out.old ++ numbers_line (codes "filling") places.now) }
{
    write!(out, "filling")?;
    push_places(out, places)?;
    writeln!(out)
}

/// The verdict of a Fit, and how many lines it wrote.
#[tactic(auto, using(text::proofs::Decimals::decimal_numeral))]
fn push_counts(out: &mut String, fitted: Fitted) -> Result<(), AllocError>
    ensures { OnOk result (string_bytes out.new ≡ string_bytes out.old ++ (codes "fit " ++ (numeral (verdict_of fitted.core) ++ (32 ∷ (numeral fitted.lines ++ (32 ∷ [])))))) }
{
    let verdict = fitted.verdict().number();
    write!(out, "fit {verdict} {} ", fitted.lines)
}

/// What a Fit came to: its verdict, how many lines it wrote, and its core.
#[tactic(auto, using(text::proofs::Pieces::pieces))]
fn push_outcome(out: &mut String, fitted: Fitted) -> Result<(), AllocError>
    ensures { OnOk result (string_bytes out.new ≡ string_bytes out.old ++ fit_line fitted) }
{
    push_counts(out, fitted)?;
    push_set(out, fitted.core_set())?;
    writeln!(out)
}

/// The filling of a Fit, if it found one.
fn push_found(out: &mut String, fitted: Fitted, places: &[u8]) -> Result<(), AllocError>
    ensures { OnOk result (string_bytes out.new ≡ string_bytes out.old ++ filling_text fitted.core places.now) }
{
    match fitted.core {
        None => push_filling(out, places),
        Some(_) => Ok(()),
    }
}

/// The lines of a log.
fn push_log(out: &mut String, lines: &[Line]) -> Result<(), AllocError>
    ensures { OnOk result (string_bytes out.new ≡ string_bytes out.old ++ flat_map log_line lines.now) }
{
    for line in lines {
        push_log_line(out, line)?;
    }
    Ok(())
}

/// A Fit that was done: what it came to, the filling if there is one, and its log.
#[tactic(auto, using(text::proofs::Pieces::pieces))]
fn push_fitted(
    out: &mut String,
    fitted: Fitted,
    cells: usize,
    buffers: &Buffers,
) -> Result<(), AllocError>
    ensures { OnOk result (string_bytes out.new ≡ string_bytes out.old ++ (fit_line fitted
        ++ (filling_text fitted.core (take cells (vec_items buffers.now.filling)) ++ flat_map log_line (take fitted.lines (vec_items buffers.now.log))))) }
{
    push_outcome(out, fitted)?;
    push_found(out, fitted, part(&buffers.filling, 0, cells))?;
    push_log(out, part(&buffers.log, 0, fitted.lines))
}

/// The words for a call that was answered by a number.
fn call_words(call: Call) -> &'static str
    ensures { result.now ≡ call_text call }
{
    match call {
        Call::Pin { .. } => "pin",
        Call::Free { .. } => "free",
        Call::Switch { .. } => "switch",
        Call::Fit => "fit refused",
    }
}

/// The line of a call that was answered by a number.
#[tactic(auto, using(text::proofs::Pieces::pieces))]
fn push_number(out: &mut String, call: Call, number: u8) -> Result<(), AllocError>
    ensures { OnOk result (string_bytes out.new ≡ string_bytes out.old ++ call_line call number) }
{
    let words = call_words(call);
    writeln!(out, "{words} {number}")
}

/// The text of a call's answer.
pub fn push_answer(out: &mut String, cells: usize, step: &Step) -> Result<(), AllocError>
    ensures { OnOk result (string_bytes out.new ≡ string_bytes out.old ++ answer_text cells step.now step.now.answer) }
{
    match step.answer {
        Answer::Done => push_number(out, step.call, 0),
        Answer::Fitted(fitted) => push_fitted(out, fitted, cells, &step.buffers),
        Answer::Refused(refusal) => push_number(out, step.call, refusal.number()),
    }
}
