//! Rule books, known by their meaning: what the search asks of a book, and books made of other books. Uses `bits`.
#![tactic(auto)]

pub mod book;
pub mod cells;
pub mod joined;
pub mod masks;
pub mod tries;
pub mod turned;
