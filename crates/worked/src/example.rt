//! The worked sheets.
ghost use Rattle.std.specs.Prelude.{◌≡◌, IfOk, string_bytes};
ghost use Rattle.sheets.specs.Sheet.{file_of};
ghost use Rattle.worked.specs.Examples.{sheet_of, calls_of, text_of, Holds};

use answers::answer::answer;
use calls::call::Call;
use std::alloc::{AllocError, Global};

/// A sheet, with the calls that are made on it. Each of its three cells has the list 1, 2, 3.
#[derive(Clone, Copy, Debug, PartialEq, Eq)]
pub enum Example {
    /// `C0<C1`, `C1<C0` and `C2=2`, and a Fit.
    Opposed,
    /// `C0<C1`, `C0<>1` and `C2<1`, and a Fit.
    LoneRule,
    /// A rule on C0 that permits no row, and a Fit.
    NothingPermitted,
    /// A rule on C0 that forbids no row, and a Fit.
    NothingForbidden,
    /// The rules of `Opposed`. Rule 1 is switched off, C0 is pinned to place 2, and a Fit is made; then C0 is freed, and another Fit is made.
    Freed,
}

impl Example {
    /// The file of its sheet.
    pub fn file(self) -> &'static [u8]
        ensures { result.now ≡ file_of (sheet_of self) }
    {
        match self {
            Example::Opposed | Example::Freed => {
                b"\x01\x00\x0c\x00\x00\x00\x01\x00\x00\x00\x02\x00\x00\x00\x03\x01\x00\x0c\x00\x00\x00\x01\x00\x00\x00\x02\x00\x00\x00\x03\x01\x00\x0c\x00\x00\x00\x01\x00\x00\x00\x02\x00\x00\x00\x03\x03\x00\x05C0<C1\x03\x00\x05C1<C0\x03\x00\x04C2=2\x04\x00\x00"
            }
            Example::LoneRule => {
                b"\x01\x00\x0c\x00\x00\x00\x01\x00\x00\x00\x02\x00\x00\x00\x03\x01\x00\x0c\x00\x00\x00\x01\x00\x00\x00\x02\x00\x00\x00\x03\x01\x00\x0c\x00\x00\x00\x01\x00\x00\x00\x02\x00\x00\x00\x03\x03\x00\x05C0<C1\x03\x00\x05C0<>1\x03\x00\x04C2<1\x04\x00\x00"
            }
            Example::NothingPermitted => {
                b"\x01\x00\x0c\x00\x00\x00\x01\x00\x00\x00\x02\x00\x00\x00\x03\x01\x00\x0c\x00\x00\x00\x01\x00\x00\x00\x02\x00\x00\x00\x03\x01\x00\x0c\x00\x00\x00\x01\x00\x00\x00\x02\x00\x00\x00\x03\x02\x00\x03\x00\x01\x00\x04\x00\x00"
            }
            Example::NothingForbidden => {
                b"\x01\x00\x0c\x00\x00\x00\x01\x00\x00\x00\x02\x00\x00\x00\x03\x01\x00\x0c\x00\x00\x00\x01\x00\x00\x00\x02\x00\x00\x00\x03\x01\x00\x0c\x00\x00\x00\x01\x00\x00\x00\x02\x00\x00\x00\x03\x02\x00\x03\x01\x01\x00\x04\x00\x00"
            }
        }
    }

    /// The calls that are made on it. Every play of them by runs comes to what was worked out.
    pub fn calls(self) -> &'static [Call]
        ensures calls { result.now ≡ calls_of self }
        ensures holds { Holds self result.now }
    {
        match self {
            Example::Freed => &[
                Call::Switch { rule: 1, on: false },
                Call::Pin { cell: 0, place: 2 },
                Call::Fit,
                Call::Free { cell: 0 },
                Call::Fit,
            ],
            Example::Opposed
            | Example::LoneRule
            | Example::NothingPermitted
            | Example::NothingForbidden => &[Call::Fit],
        }
    }

    /// The text that `fit` prints for its file.
    pub fn text(self, heap: Global) -> Result<String, AllocError>
        ensures { IfOk result (λ v. string_bytes v ≡ text_of self) }
    {
        answer(heap, self.file())
    }
}

#[cfg(test)]
mod tests {
    use super::Example;
    use std::test::Fail;

    #[test]
    fn texts(rt: HostRuntime) -> Result<(), Fail> {
        let clash = Example::Opposed.text(rt.alloc())?;
        assert!(rt; clash.as_str() == "CLASH 6\nrule 0\nrule 1\n");
        let lone = Example::LoneRule.text(rt.alloc())?;
        assert!(rt; lone.as_str() == "CLASH 4\nrule 2\n");
        let nothing = Example::NothingPermitted.text(rt.alloc())?;
        assert!(rt; nothing.as_str() == "CLASH 3\nrule 0\n");
        let all = Example::NothingForbidden.text(rt.alloc())?;
        assert!(rt; all.as_str() == "FITS 1\nC0=1\nC1=1\nC2=1\n");
        Ok(())
    }
}
