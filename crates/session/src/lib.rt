//! A session: pins, switches and Fit over any rule book and any cell chooser.
//! Uses `bits`, `network`, `choosers`, `runs`, `readiness`, `search`, `cores`, `clash`, `calls` and `opening`.
#![tactic(auto)]

pub mod session;
mod start;
mod table;
mod task;
