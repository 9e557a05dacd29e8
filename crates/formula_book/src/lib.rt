//! The formula book: rules that are conditions on the cells' numbers, over borrowed stores. Uses `bits`, `network`, `formulas`, `reader` and `judge`.
#![tactic(auto)]

pub mod book;
pub mod check;
mod search;
pub mod support;
