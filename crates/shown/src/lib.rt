//! The text that `show` prints for a sheet file. Uses `formulas`, `text`, `sheets`, `load`, `storage` and `listing`.
#![tactic(auto)]

ghost use Rattle.std.specs.Prelude.{◌≡◌, IfOk, string_bytes};
ghost use Rattle.sheets.specs.Stored.{held, Enough};
ghost use Rattle.shown.specs.Shown.{layer_text, layered_text, Shows};

use listing::listing;
use load::load::load;
use sheets::fault::{Layer, LoadFault};
use sheets::stores::Stores;
use std::alloc::{AllocError, Global};
use storage::Storage;

/// The word for a layer.
pub fn layer_word(layer: Layer) -> &'static str
    ensures { result.now ≡ layer_text layer }
{
    match layer {
        Layer::Field => "field",
        Layer::Rule => "rule",
        Layer::Formula => "formula",
    }
}

/// The line of a fault.
// Beside `text::push_fault`, since there the layer is left out.
#[tactic(auto, using(text::proofs::Decimals::decimal_numeral))]
fn fault_line(heap: Global, fault: LoadFault) -> Result<String, AllocError>
    ensures { IfOk result (λ v. string_bytes v ≡ layered_text fault) }
{
    let number = fault.number();
    let word = layer_word(fault.layer());
    let offset = fault.offset();
    format!(in heap; "FAULT {number} {word} {offset}\n")
}

/// The text for a file, read into these stores.
fn shown_in(heap: Global, file: &[u8], stores: &mut Stores<'_>) -> Result<Vec<u8>, AllocError>
    requires { Enough (held stores.old) }
    ensures { IfOk result (λ v. Shows file.now v.items) }
{
    let mut out = Vec::new(heap);
    match load(file, stores) {
        Ok(extent) => listing(&mut out, file, stores, extent)?,
        Err(fault) => out.extend_from_slice(fault_line(heap, fault)?.as_bytes())?,
    }
    Ok(out)
}

/// The text that `show` prints for a file: that of its sheet, or the first fault's number, layer and offset.
// Bytes and no `String`, as `listing` makes them.
pub fn shown(heap: Global, file: &[u8]) -> Result<Vec<u8>, AllocError>
    ensures { IfOk result (λ v. Shows file.now v.items) }
{
    let mut storage = Storage::new(heap)?;
    shown_in(heap, file, &mut storage.lend())
}

#[cfg(test)]
mod tests {
    use std::test::Fail;

    #[test]
    fn a_fault_of_fields(rt: HostRuntime) -> Result<(), Fail> {
        let out = super::shown(rt.alloc(), b"")?;
        assert!(rt; out.as_slice() == b"FAULT 1 field 0\n".as_slice());
        Ok(())
    }

    #[test]
    fn a_fault_of_a_rule(rt: HostRuntime) -> Result<(), Fail> {
        let file = b"\x01\x00\x08\x00\x00\x00\x01\x00\x0f\x42\x41\x04\x00\x00";
        let out = super::shown(rt.alloc(), file)?;
        assert!(rt; out.as_slice() == b"FAULT 3 rule 0\n".as_slice());
        Ok(())
    }

    #[test]
    fn a_fault_of_a_formula(rt: HostRuntime) -> Result<(), Fail> {
        let file =
            b"\x01\x00\x0c\x00\x00\x00\x01\x00\x00\x00\x02\x00\x00\x00\x03\x01\x00\x0c\x00\x00\x00\x01\x00\x00\x00\x02\x00\x00\x00\x03\x01\x00\x0c\x00\x00\x00\x01\x00\x00\x00\x02\x00\x00\x00\x03\x03\x00\x05C0=07\x04\x00\x00";
        let out = super::shown(rt.alloc(), file)?;
        assert!(rt; out.as_slice() == b"FAULT 6 formula 52\n".as_slice());
        Ok(())
    }
}
