//! A place where a condition can begin.
ghost use Rattle.reader.specs.Places.{Ready};

use crate::cursor::Cursor;

/// A place where a condition can begin, with its level: no fault comes before it.
#[derive(Clone, Copy)]
pub struct Nested<'a> {
    pub at: Cursor<'a>,
    pub level: u8,
    ghost ready: { Ready at level },
}
