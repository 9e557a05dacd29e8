//! What a script of calls is: its lines, and how each is read. Uses `bits` and `calls`.
#![tactic(auto)]

pub mod line;
mod number;
mod words;
