//! Cell choosers, known by their meaning: which open cell a run tries next. Uses nothing but std.
#![tactic(auto)]

mod best;
pub mod chooser;
pub mod fewest;
pub mod last_conflict;
pub mod open;
#[cfg(test)]
mod tests;
pub mod weighted;
