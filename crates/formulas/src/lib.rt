//! Formulas: their trees and stored nodes, the faults of a text, and the theory of reading one. Uses nothing but std.
#![tactic(auto)]

pub mod fault;
pub mod node;
