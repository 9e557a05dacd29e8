//! The calls of a session, with their buffers.
ghost use Rattle.std.specs.Prelude.{◌≡◌, List, [], ◌∷◌, ◌++◌, IfOk, OnOk};
ghost use Rattle.calls.specs.Plays.{sizes};
ghost use Rattle.replaying.specs.Sessions.{room_of, Prepared};

use answers::fit::fit_step;
use calls::answer::Answer;
use calls::call::Call;
use calls::step::{Buffers, Step};
use script::line::Line;
use std::alloc::{AllocError, Global};

/// Empty buffers.
fn no_room(heap: Global) -> Buffers
    ensures { sizes result ≡ record { work = 0; log = 0; filling = 0 } }
{
    Buffers {
        work: Vec::new(heap),
        log: Vec::new(heap),
        filling: Vec::new(heap),
    }
}

/// A call that is still to be made; only a Fit looks at its buffers.
fn step(heap: Global, call: Call) -> Result<Step, AllocError>
    ensures { IfOk result (λ b. (b.call ≡ call) × (sizes b.buffers ≡ room_of b.call)) }
{
    match call {
        Call::Fit => fit_step(heap),
        Call::Pin { .. } | Call::Free { .. } | Call::Switch { .. } => Ok(Step {
            call,
            buffers: no_room(heap),
            answer: Answer::Done,
        }),
    }
}

/// Adds the call of one more line, if it is one.
fn push_step(heap: Global, steps: &mut Vec<Step>, line: &Line) -> Result<(), AllocError>
    ensures { OnOk result ((ls : List Line) → Prepared ls steps.old.items → Prepared (ls ++ (line.now ∷ [])) steps.new.items) }
{
    let Line::Call(call) = line else {
        return Ok(());
    };
    steps.push(step(heap, *call)?)?;
    Ok(())
}

/// The calls among some lines, in order, still to be made.
pub fn steps(heap: Global, lines: &[Line]) -> Result<Vec<Step>, AllocError>
    ensures { IfOk result (λ v. Prepared lines.now v.items) }
{
    let mut steps = Vec::new(heap);
    for line in lines {
        push_step(heap, &mut steps, line)?;
    }
    Ok(steps)
}
