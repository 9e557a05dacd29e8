//! Sheet files: what a sheet is, its bytes, the faults of a file, the stores that one is read into, and the theory of reading one.
//! Uses `bits`, `network`, `formulas`, `reader` and `rows`.
#![tactic(auto)]

pub mod fault;
pub mod stores;
pub mod tag;
