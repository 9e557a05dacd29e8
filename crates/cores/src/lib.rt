//! From a clash to its core: which runs a Fit makes and what they come to, over any relation of runs whose lines are right. Definitions and proofs only.
//! Uses `bits` and `runs`.
#![tactic(auto)]
