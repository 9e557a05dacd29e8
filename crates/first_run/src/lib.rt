//! The text that `once` prints for a sheet file: that of one run of all its rules, from whole lists.
//! Uses `bits`, `network`, `choosers`, `runs`, `search`, `calls`, `opening`, `session`, `sheets`, `load`, `sheet_books`, `storage`, `text`, `run_lines` and `answers`; its chooser is that of `answers`.
#![tactic(auto)]

pub mod first_run;
mod made;
mod start;
mod telling;
