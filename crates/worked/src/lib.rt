//! Worked sheets, small enough to follow by hand, and what calls on them come to: which lines, cores, fillings and weights.
//! Uses `bits`, `network`, `choosers`, `runs`, `cores`, `clash`, `calls`, `session`, `play`, `formulas`, `reader`, `rows`, `sheets`, `load`, `storage`, `sheet_books`, `report` and `answers`.
#![tactic(auto)]

pub mod example;
pub mod playing;
pub mod sample;
pub mod usual;
