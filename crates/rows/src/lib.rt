//! The rows book: rules that store their permitted or their forbidden rows, over borrowed stores. Uses `bits` and `network`.
#![tactic(auto)]

pub mod book;
pub mod check;
pub mod rule;
mod search;
pub mod support;
#[cfg(test)]
mod tests;
