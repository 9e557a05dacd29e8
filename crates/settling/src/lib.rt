//! Settling: places without support go, sweep after sweep, until none is left without or a cell is empty. Uses `bits`, `network` and `runs`.
#![tactic(auto)]

pub mod emptied;
pub mod progress;
mod revise;
mod settle;
