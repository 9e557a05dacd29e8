//! The readable text of a sheet that was read, for a person. Uses `bits`, `formulas`, `text`, `rows`, `sheets` and `sheet_books`.
#![tactic(auto)]

ghost use Rattle.std.specs.Prelude.{◌≡◌, ◌++◌, OnOk};
ghost use Rattle.sheets.specs.Sheet.{Sheet, file_of};
ghost use Rattle.sheets.specs.Stored.{held};
ghost use Rattle.sheet_books.specs.Books.{Holds};
ghost use Rattle.listing.specs.Listing.{listing_of};

use crate::fields::push_formulas;
use crate::lines::{push_cells, push_rules};
use sheet_books::{lengths, rules};
use sheets::stores::{Extent, Stores};
use std::alloc::AllocError;

mod fields;
mod lines;

/// Appends the text of the sheet in the stores, which was read from this file. The stored nodes are the same for AND(a,AND(b,c)) and for AND(a,b,c), so the formulas' texts are taken from the file.
// Bytes and no `String`, which would have to check what the file has of formulas. The host keeps the stores, so the extent comes beside them.
pub fn listing(
    out: &mut Vec<u8>,
    file: &[u8],
    stores: &Stores<'_>,
    extent: Extent,
) -> Result<(), AllocError>
    ensures { OnOk result ((s : Sheet) → Holds (held stores.now) extent s → file.now ≡ file_of s → out.new.items ≡ out.old.items ++ listing_of s) }
{
    let rules = rules(stores, extent);
    push_cells(out, lengths(stores, extent), &stores.numbers)?;
    push_rules(out, rules, &stores.places)?;
    push_formulas(out, rules.len() as u64, file)
}
