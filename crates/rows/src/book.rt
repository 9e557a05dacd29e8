//! The stores of a rows book, known to be well formed.
ghost use Rattle.rows.specs.Rows.{WellFormed};

use crate::rule::RowsRule;

/// Rules and the bytes of their rows, one byte a place. No value breaks the laws of a rule book, since each is well formed.
#[derive(Clone, Copy)]
pub struct RowsBook<'a> {
    pub rules: &'a [RowsRule],
    pub bytes: &'a [u8],
    ghost ok: { WellFormed rules.now bytes.now },
}
