//! The answers to calls.
ghost use Rattle.std.specs.Prelude.{◌≡◌};
ghost use Rattle.calls.specs.Answers.{to_change, to_fit};

use crate::refusal::Refusal;
use clash::fitted::Fitted;

/// The answer to a call.
// Three cases of its own: as a `Result` of an `Option`, a call that is done would be `Ok(None)`, which says less.
#[derive(Clone, Copy, Debug, PartialEq, Eq)]
pub enum Answer {
    /// A Pin, a Free or a Switch was done.
    Done,
    /// A Fit was done.
    Fitted(Fitted),
    /// The call was refused.
    Refused(Refusal),
}

/// The answer to a Pin, a Free or a Switch.
impl From<Result<(), Refusal>> for Answer {
    ghost from_gives = { λ r a. a ≡ to_change r };

    fn from(res: Result<(), Refusal>) -> Self {
        match res {
            Ok(()) => Answer::Done,
            Err(refusal) => Answer::Refused(refusal),
        }
    }
}

/// The answer to a Fit.
// As above but for a call that is done: a function for both would be handed that case.
impl From<Result<Fitted, Refusal>> for Answer {
    ghost from_gives = { λ r a. a ≡ to_fit r };

    fn from(res: Result<Fitted, Refusal>) -> Self {
        match res {
            Ok(fitted) => Answer::Fitted(fitted),
            Err(refusal) => Answer::Refused(refusal),
        }
    }
}
