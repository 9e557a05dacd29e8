//! The text that `replay` prints for a sheet file and a script of calls.
//! Uses `bits`, `network`, `choosers`, `runs`, `clash`, `calls`, `opening`, `session`, `play`, `formulas`, `sheets`, `load`, `sheet_books`, `storage`, `text`, `shown`, `run_lines`, `answers` and `script`.
#![tactic(auto)]

mod answer;
mod lines;
pub mod replay;
mod session_text;
mod steps;
