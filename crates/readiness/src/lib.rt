//! Whether rules may be run from some starting sets: what a run wants of its book, of the sets and of its buffers. Uses `bits`, `network` and `runs`.
#![tactic(auto)]

pub mod ready;
pub mod room;
pub mod suits;
