//! Load: reads a sheet file into lent stores, or refuses it with its first fault. Uses `network`, `formulas`, `reader`, `rows` and `sheets`.
#![tactic(auto)]

mod content;
mod field;
mod head;
mod list;
pub mod load;
mod loading;
mod rule;
