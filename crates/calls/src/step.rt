//! A call with the buffers that it is handed, and its answer.
use crate::answer::Answer;
use crate::call::Call;
use runs::line::Line;

/// What a Fit is handed: a work buffer, a log, and bytes for the filling. Other calls leave it alone.
#[derive(Drop)]
pub struct Buffers {
    pub work: Vec<u64>,
    pub log: Vec<Line>,
    pub filling: Vec<u8>,
}

/// A call with buffers of its own, and its answer, which is written when the call is made.
// The answer is no `Option`: it is read after the call alone, and an `Option` would have to be taken apart there.
#[derive(Drop)]
pub struct Step {
    pub call: Call,
    pub buffers: Buffers,
    pub answer: Answer,
}
