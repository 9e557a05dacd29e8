//! Reads a formula's text into a lent store of nodes. Uses `formulas`.
#![tactic(auto)]

mod bytes;
mod conditions;
mod cursor;
pub mod formula;
mod join;
mod mentions;
mod named;
mod nested;
mod sides;
mod store;
pub mod unread;
