//! The calls on a session, their refusals and their answers, and what any sequence of them promises.
//! Uses `bits`, `network`, `choosers`, `runs`, `cores` and `clash`.
#![tactic(auto)]

pub mod answer;
pub mod call;
pub mod refusal;
pub mod step;
