//! What settling and a run are, and their laws: definitions and proofs, and the line that a run writes. Uses `bits`, `network` and `choosers`.
#![tactic(auto)]

pub mod line;
