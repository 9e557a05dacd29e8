//! The text of a session's lines.
ghost use Rattle.std.specs.Prelude.{◌≡◌, ℕ, ◌+◌, ◌^◌, ◌<◌, List, [], ◌∷◌, ◌++◌, length, codes, IfOk, OnOk, string_bytes};
ghost use Rattle.replaying.specs.Lines.{not_understood};
ghost use Rattle.replaying.specs.Sessions.{told};

use crate::answer::push_answer;
use calls::step::Step;
use script::line::Line;
use std::alloc::AllocError;

/// The end of the line that says so of a line of the script.
fn push_end(out: &mut String) -> Result<(), AllocError>
    ensures { OnOk result (string_bytes out.new ≡ string_bytes out.old ++ (codes " not understood" ++ (10 ∷ []))) }
{
    out.push_str(" not understood\n")
}

/// That a line of the script is not understood.
fn push_not_understood(out: &mut String, number: usize) -> Result<(), AllocError>
    ensures { OnOk result (string_bytes out.new ≡ string_bytes out.old ++ not_understood number) }
{
    write!(out, "line {number}")?;
    push_end(out)
}

/// What is told of a line, where these steps are still to be told; it returns those to be told after it.
fn push_line<'a>(
    out: &mut String,
    cells: usize,
    number: usize,
    line: &Line,
    steps: &'a [Step],
) -> Result<&'a [Step], AllocError>
    ensures { IfOk result (λ rest. (ls : List Line) → string_bytes out.new ++ told cells (number + 1) ls rest.now ≡ string_bytes out.old ++ told cells number (line.now ∷ ls) steps.now) }
{
    match line {
        Line::Blank | Line::Turn(_) => Ok(steps),
        Line::NotUnderstood => {
            push_not_understood(out, number)?;
            Ok(steps)
        }
        Line::Call(_) => {
            let Some((step, later)) = steps.split_first() else {
                return Ok(steps);
            };
            push_answer(out, cells, step)?;
            Ok(later)
        }
    }
}

/// What is told of some lines, the first of which has this number.
pub(crate) fn push_lines(
    out: &mut String,
    cells: usize,
    first: usize,
    lines: &[Line],
    steps: &[Step],
) -> Result<(), AllocError>
    requires { first + length lines.now < 2 ^ 64 }
    ensures { OnOk result (string_bytes out.new ≡ string_bytes out.old ++ told cells first lines.now steps.now) }
{
    let mut rest = steps;
    for (place, line) in lines.iter().enumerate() {
        rest = push_line(out, cells, first + place, line, rest)?;
    }
    Ok(())
}
