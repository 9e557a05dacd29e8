//! What is read so far.
ghost use Rattle.std.specs.Prelude.{◌+◌, ◌≤◌};
ghost use Rattle.sheets.specs.Stored.{Enough, held};

use sheets::stores::{Extent, Stores};

/// The stores, and how much of each is taken.
// The file and a place in it stay beside this struct: the four functions that have both ask three different things of the place.
// `Kept` stays a clause, since it compares what is lent before and after.
#[derive(Drop)]
pub(crate) struct Loading<'l, 'a> {
    pub stores: &'l mut Stores<'a>,
    pub extent: Extent,
    ghost enough: { Enough (held stores.now) },
    ghost few_cells: { extent.cells ≤ 64 },
    ghost few_rules: { extent.rules + extent.formulas ≤ 64 },
}
