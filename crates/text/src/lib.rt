//! What several texts are made of: numbers, the line of a fault, what stands between two items, and parts of slices. Uses `formulas` and `itoa`.
#![tactic(auto)]

ghost use Rattle.std.specs.Prelude.{◌≡◌, ℕ, List, [], ◌++◌, take, drop, if◌then◌else◌, OnOk, nat_eq, string_bytes};
ghost use Rattle.formulas.specs.Tree.{numeral, number_text};
ghost use Rattle.text.specs.Text.{fault_text};

use itoa::Buffer;
use std::alloc::AllocError;

/// What a text is appended to: a `String`, or bytes, of which not all have to be text.
pub trait Appended {
    /// The bytes that it has.
    ghost bytes: { Self → List ℕ };

    /// Appends a text.
    fn push_text(&mut self, text: &str) -> Result<(), AllocError>
        ensures { OnOk result (bytes self.new ≡ bytes self.old ++ text.now) };
}

impl Appended for Vec<u8> {
    ghost bytes = { λ v. v.items };

    fn push_text(&mut self, text: &str) -> Result<(), AllocError> {
        self.extend_from_slice(text.as_bytes())
    }
}

impl Appended for String {
    ghost bytes = { string_bytes };

    fn push_text(&mut self, text: &str) -> Result<(), AllocError> {
        self.push_str(text)
    }
}

/// Appends a number's digits, without a leading zero.
// By `itoa` and no `write!`, which takes three times as long where a text is made of small numbers, since it moves the text out and back.
#[tactic(auto, using(crate::proofs::Decimals::decimal_numeral))]
pub fn push_digits<T: Appended>(out: &mut T, number: u64) -> Result<(), AllocError>
    ensures { OnOk result (T.bytes out.new ≡ T.bytes out.old ++ numeral number) }
{
    out.push_text(Buffer::new().format(number))
}

/// Appends a number's digits, after a minus if it is below 0.
#[tactic(auto, using(crate::proofs::Decimals::signed_number_text))]
pub fn push_number<T: Appended>(out: &mut T, value: i32) -> Result<(), AllocError>
    ensures { OnOk result (T.bytes out.new ≡ T.bytes out.old ++ number_text value) }
{
    out.push_text(Buffer::new().format(value))
}

/// The line of a fault: `FAULT`, its number and its offset.
// No `Display`: faults of files, of formulas and of calls are three types, and the line has the number and the offset alone.
#[tactic(auto, using(crate::proofs::Decimals::decimal_numeral))]
pub fn push_fault(out: &mut String, number: u8, offset: usize) -> Result<(), AllocError>
    ensures { OnOk result (string_bytes out.new ≡ string_bytes out.old ++ fault_text number offset) }
{
    writeln!(out, "FAULT {number} {offset}")
}

/// What stands between two items of a line: it is written before each item but the first, whose place is 0.
pub fn push_separator<T: Appended>(
    out: &mut T,
    separator: &str,
    place: usize,
) -> Result<(), AllocError>
    ensures { OnOk result (T.bytes out.new ≡ T.bytes out.old ++ (if nat_eq place 0 then [] else separator.now)) }
{
    if place == 0 {
        Ok(())
    } else {
        out.push_text(separator)
    }
}

/// So many items from a place on, fewer where there are not so many.
pub fn part<T>(items: &[T], from: usize, count: usize) -> &[T]
    ensures { result.now ≡ take count (drop from items.now) }
{
    let from = items.len().min(from);
    let count = count.min(items.len() - from);
    &items[from..from + count]
}

#[cfg(test)]
mod tests {
    use std::test::Fail;

    #[test]
    fn fault_line(rt: HostRuntime) -> Result<(), Fail> {
        let mut out = String::new(rt.alloc());
        super::push_fault(&mut out, 6, 4)?;
        assert!(rt; out.as_str() == "FAULT 6 4\n");
        Ok(())
    }

    #[test]
    fn digits_of_numbers(rt: HostRuntime) -> Result<(), Fail> {
        let mut out = String::new(rt.alloc());
        for number in [0, 7, 10, 909, u64::MAX] {
            super::push_digits(&mut out, number)?;
            out.push_str(" ")?;
        }
        assert!(rt; out.as_str() == "0 7 10 909 18446744073709551615 ");
        Ok(())
    }

    #[test]
    fn numbers_with_signs(rt: HostRuntime) -> Result<(), Fail> {
        let mut out = Vec::new(rt.alloc());
        for number in [0, 5, -5, 120, -2147483648] {
            super::push_number(&mut out, number)?;
            out.extend_from_slice(b" ")?;
        }
        assert!(rt; out.as_slice() == b"0 5 -5 120 -2147483648 ".as_slice());
        Ok(())
    }

    #[test]
    fn separators(rt: HostRuntime) -> Result<(), Fail> {
        let mut out = String::new(rt.alloc());
        for place in 0..3usize {
            super::push_separator(&mut out, "-", place)?;
        }
        assert!(rt; out.as_str() == "--");
        Ok(())
    }
}
