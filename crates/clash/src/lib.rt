//! From a clash to its core, by runs of anything that runs. Uses `bits`, `runs`, `readiness` and `cores`.
#![tactic(auto)]

mod core_search;
pub mod fitted;
pub mod masks;
pub mod runner;
pub mod search;
