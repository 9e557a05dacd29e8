//! The rule books of a sheet that was read into the stores. Uses `bits`, `network`, `formulas`, `judge`, `rows`, `formula_book`, `reader` and `sheets`.
#![tactic(auto)]

ghost use Rattle.std.specs.Prelude.{◌≡◌, map, length, take};
ghost use Rattle.sheets.specs.Sheet.{Sheet};
ghost use Rattle.sheets.specs.Stored.{held, rules_of};
ghost use Rattle.sheets.specs.Meaning.{Means};
ghost use Rattle.sheet_books.specs.Books.{Holds, Lends, lent, book_of};

use formula_book::book::FormulaBook;
use network::joined::Joined;
use rows::book::RowsBook;
use rows::rule::RowsRule;
use sheets::stores::{Extent, Stores};

/// The first items, all of them where there are fewer.
// As `text::part` from 0 on: to share this line, a crate of books would import one of texts.
fn first<T>(items: &[T], count: usize) -> &[T]
    ensures { result.now ≡ take count items.now }
{
    &items[..count.min(items.len())]
}

/// The length of each cell's list.
// Stores and extent stay two: the host keeps the stores that it lends, and Load gives the extent beside them.
pub fn lengths<'a>(stores: &'a Stores<'_>, extent: Extent) -> &'a [u8]
    ensures part { result.now ≡ take extent.cells stores.now.lengths.now }
    ensures means { (s : Sheet) → Holds (held stores.now) extent s → result.now ≡ map length s.lists }
{
    first(&stores.lengths, extent.cells)
}

/// The rules by rows.
pub fn rules<'a>(stores: &'a Stores<'_>, extent: Extent) -> &'a [RowsRule]
    ensures part { result.now ≡ take extent.rules stores.now.rules.now }
    ensures means { (s : Sheet) → Holds (held stores.now) extent s → result.now ≡ rules_of 0 s.rows }
{
    first(&stores.rules, extent.rules)
}

/// The books of the sheet that was read into the stores: its rules by rows, then its rules by formulas. Nothing is copied.
/// Where the rules or the formulas are not well formed, which never is after reading, their book has none.
pub fn books<'a>(stores: &'a Stores<'_>, extent: Extent) -> Joined<RowsBook<'a>, FormulaBook<'a>>
    ensures lends { Lends (held stores.now) extent (lent result) }
    ensures means { (s : Sheet) → Holds (held stores.now) extent s → Means s (book_of (lent result)) }
{
    let rules = rules(stores, extent);
    let formulas = first(&stores.formulas, extent.formulas);
    let lengths = lengths(stores, extent);
    Joined::new(
        RowsBook::new(rules, &stores.places),
        FormulaBook::new(formulas, &stores.nodes, lengths, &stores.numbers),
    )
}
