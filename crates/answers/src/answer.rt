//! What `fit` prints for a file.
ghost use Rattle.std.specs.Prelude.{◌≡◌, ℕ, List, ◌++◌, IfOk, OnOk, string_bytes};
ghost use Rattle.sheets.specs.Sheet.{Sheet};
ghost use Rattle.sheets.specs.Stored.{held, Enough};
ghost use Rattle.sheet_books.specs.Books.{Holds};
ghost use Rattle.answers.specs.Answers.{SheetText, Answers};

use crate::fit::{fit_step, push_fit};
use load::load::load;
use sheet_books::{books, lengths};
use sheets::stores::{Extent, Stores};
use std::alloc::{AllocError, Global};
use storage::Storage;
use text::push_fault;

/// The text of one Fit on the sheet in the stores.
// Load gives the extent beside the stores, which the host keeps.
fn push_sheet(
    heap: Global,
    out: &mut String,
    stores: &Stores<'_>,
    extent: Extent,
) -> Result<(), AllocError>
    ensures { OnOk result ((s : Sheet) → Holds (held stores.now) extent s → ((t : List ℕ) × (string_bytes out.new ≡ string_bytes out.old ++ t) × SheetText s t)) }
{
    let mut steps = [fit_step(heap)?];
    push_fit(
        out,
        lengths(stores, extent),
        &stores.numbers,
        books(stores, extent),
        &mut steps,
    )
}

/// The text for a file, read into these stores.
fn answer_in(heap: Global, file: &[u8], stores: &mut Stores<'_>) -> Result<String, AllocError>
    requires { Enough (held stores.old) }
    ensures { IfOk result (λ v. Answers file.now (string_bytes v)) }
{
    let mut out = String::new(heap);
    match load(file, stores) {
        Ok(extent) => push_sheet(heap, &mut out, stores, extent)?,
        Err(fault) => push_fault(&mut out, fault.number(), fault.offset())?,
    }
    Ok(out)
}

/// The text that `fit` prints for a file: the first fault; or that a Fit finds a filling, with the number of each cell, or a clash, with the rules of its core.
pub fn answer(heap: Global, file: &[u8]) -> Result<String, AllocError>
    ensures { IfOk result (λ v. Answers file.now (string_bytes v)) }
{
    let mut storage = Storage::new(heap)?;
    answer_in(heap, file, &mut storage.lend())
}

#[cfg(test)]
mod tests {
    use std::test::Fail;

    #[test]
    fn a_filling(rt: HostRuntime) -> Result<(), Fail> {
        let file =
            b"\x01\x00\x10\x00\x00\x00\x05\xff\xff\xff\xfd\xff\xff\xff\xf8\x00\x00\x00\x02\x01\x00\x0c\x00\x00\x00\x02\xff\xff\xff\xfe\xff\xff\xff\xf7\x04\x00\x00";
        let out = super::answer(rt.alloc(), file)?;
        assert!(rt; out.as_str() == "FITS 1\nC0=5\nC1=2\n");
        Ok(())
    }

    #[test]
    fn a_core(rt: HostRuntime) -> Result<(), Fail> {
        let file =
            b"\x01\x00\x0c\x00\x00\x00\x01\x00\x00\x00\x02\x00\x00\x00\x03\x01\x00\x0c\x00\x00\x00\x01\x00\x00\x00\x02\x00\x00\x00\x03\x01\x00\x0c\x00\x00\x00\x01\x00\x00\x00\x02\x00\x00\x00\x03\x02\x00\x03\x00\x01\x00\x04\x00\x00";
        let out = super::answer(rt.alloc(), file)?;
        assert!(rt; out.as_str() == "CLASH 3\nrule 0\n");
        Ok(())
    }

    #[test]
    fn no_cells(rt: HostRuntime) -> Result<(), Fail> {
        let file = b"\x04\x00\x00";
        let out = super::answer(rt.alloc(), file)?;
        assert!(rt; out.as_str() == "FAULT 11 0\n");
        Ok(())
    }

    #[test]
    fn a_fault(rt: HostRuntime) -> Result<(), Fail> {
        let file =
            b"\x01\x00\x08\x00\x00\x00\x01\x00\x00\x00\x02\x01\x00\x0c\x00\x00\x00\x01\x00\x00\x00\x02\x00\x00\x00\x03\x02\x00\x05\x00\x02\x00\x01\x00\x04\x00\x00";
        let out = super::answer(rt.alloc(), file)?;
        assert!(rt; out.as_str() == "FAULT 5 26\n");
        Ok(())
    }
}
