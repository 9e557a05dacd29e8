//! What Open checks. Uses `network`, `readiness` and `calls`.
#![tactic(auto)]

pub mod check;
