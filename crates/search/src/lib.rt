//! A run: settling and tries, to a filling or to none. Uses `bits`, `network`, `choosers`, `runs`, `readiness`, `settling` and `figures`.
#![tactic(auto)]

pub mod explore;
pub mod run;
