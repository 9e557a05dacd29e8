//! The text that `fit` prints for a sheet file.
//! Uses `bits`, `network`, `choosers`, `runs`, `clash`, `calls`, `opening`, `session`, `play`, `formulas`, `sheets`, `storage`, `load`, `sheet_books`, `text` and `report`.
#![tactic(auto)]

pub mod answer;
pub mod fit;
