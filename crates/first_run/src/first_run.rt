//! The text of a first run, from the bytes of a file.
ghost use Rattle.std.specs.Prelude.{◌≡◌, ℕ, List, ◌++◌, IfOk, OnOk, string_bytes};
ghost use Rattle.sheets.specs.Sheet.{Sheet};
ghost use Rattle.sheets.specs.Stored.{held, Enough};
ghost use Rattle.sheet_books.specs.Books.{Holds};
ghost use Rattle.calls.specs.Sheet.{sheet};
ghost use Rattle.first_run.specs.FirstRun.{RunText, SheetText, FirstRun};

use crate::made::one_run;
use crate::telling::push_made;
use load::load::load;
use network::book::RuleBook;
use opening::check::check;
use sheet_books::{books, lengths};
use sheets::stores::{Extent, Stores};
use std::alloc::{AllocError, Global};
use storage::Storage;
use text::push_fault;

/// The text of one run of all rules of a book, or of why no session can be opened over it.
fn push_run<B: RuleBook>(
    heap: Global,
    out: &mut String,
    lengths: &[u8],
    book: &B,
) -> Result<(), AllocError>
    ensures { OnOk result ((t : List ℕ) × (string_bytes out.new ≡ string_bytes out.old ++ t) × RunText (sheet lengths.now (B.RuleBook.meaning book.now)) t) }
{
    if let Err(refusal) = check(lengths, book) {
        return push_fault(out, refusal.number(), 0);
    }
    let made = one_run(heap, lengths, book)?;
    push_made(heap, out, book.count(), &made)
}

/// The text of one run over the sheet in the stores.
// Load gives the extent beside the stores, which the host keeps.
fn push_sheet(
    heap: Global,
    out: &mut String,
    stores: &Stores<'_>,
    extent: Extent,
) -> Result<(), AllocError>
    ensures { OnOk result ((s : Sheet) → Holds (held stores.now) extent s → (t : List ℕ) × (string_bytes out.new ≡ string_bytes out.old ++ t) × SheetText s t) }
{
    push_run(heap, out, lengths(stores, extent), &books(stores, extent))
}

/// The text for a file, read into these stores.
fn first_run_in(heap: Global, file: &[u8], stores: &mut Stores<'_>) -> Result<String, AllocError>
    requires { Enough (held stores.old) }
    ensures { IfOk result (λ v. FirstRun file.now (string_bytes v)) }
{
    let mut out = String::new(heap);
    match load(file, stores) {
        Ok(extent) => push_sheet(heap, &mut out, stores, extent)?,
        Err(fault) => push_fault(&mut out, fault.number(), fault.offset())?,
    }
    Ok(out)
}

/// The text that `once` prints for a file: the first fault; or the line of one run of all rules of its sheet, what it found, and the weights that it left.
pub fn first_run(heap: Global, file: &[u8]) -> Result<String, AllocError>
    ensures { IfOk result (λ v. FirstRun file.now (string_bytes v)) }
{
    let mut storage = Storage::new(heap)?;
    first_run_in(heap, file, &mut storage.lend())
}
