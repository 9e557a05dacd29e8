//! Reads cells' lists and a formula from standard input, and prints the rows that the formula permits. Uses `formulas`, `preview` and `text`.
#![tactic(auto)]

ghost use Rattle.std.specs.Prelude.{◌≡◌, [], ◌∷◌, ◌++◌, IfOk, codes, string_bytes};
ghost use Rattle.formulas.specs.Tree.{numeral};

use crate::lists::{Lists, list_in};
use std::alloc::{AllocError, Global};
use std::io;
use std::io::Write;

mod lists;

/// What is printed for some lines: each but the last is a cell's list, and the last is the formula.
fn answer(heap: Global, lines: &[String]) -> Result<String, AllocError> {
    let Some((formula, rest)) = lines.split_last() else {
        return preview::preview(heap, &[], &[], b"");
    };
    let mut lists = Lists::new(heap);
    for (place, line) in rest.iter().enumerate() {
        let Some(list) = list_in(heap, line.as_str())? else {
            return refusal(heap, place as u64 + 1);
        };
        lists.add(&list)?;
    }
    preview::preview(heap, &lists.lengths, &lists.numbers, formula.as_bytes())
}

/// What is printed for a line that is no list.
#[tactic(auto, using(text::proofs::Decimals::decimal_numeral))]
fn refusal(heap: Global, line: u64) -> Result<String, AllocError>
    ensures { IfOk result (λ v. string_bytes v ≡ codes "LIST " ++ (numeral line ++ (10 ∷ []))) }
{
    format!(in heap; "LIST {line}\n")
}

/// All lines of standard input.
fn lines_of(rt: &HostRuntime) -> io::Result<Vec<String>> {
    let mut lines = Vec::new(rt.alloc());
    for line in rt.lines(rt.alloc()) {
        lines.push(line?)?;
    }
    Ok(lines)
}

fn main(rt: HostRuntime) -> io::Result<()> {
    let lines = lines_of(&rt)?;
    let out = answer(rt.alloc(), &lines)?;
    rt.stdout().write_all(out.as_bytes())
}

#[cfg(test)]
mod tests {
    use std::alloc::Global;
    use std::test::Fail;

    // The text for a formula on one cell with the list 1, 2, 3.
    fn on_three(heap: Global, formula: &[u8]) -> Result<String, Fail> {
        let mut numbers = [0; 64];
        numbers[0] = 1;
        numbers[1] = 2;
        numbers[2] = 3;
        Ok(preview::preview(heap, &[3], &numbers, formula)?)
    }

    #[test]
    fn never_true(rt: HostRuntime) -> Result<(), Fail> {
        let out = on_three(rt.alloc(), b"C0<>C0")?;
        assert!(rt; out.as_str() == "C0\n0 rows\n");
        Ok(())
    }

    #[test]
    fn no_cell(rt: HostRuntime) -> Result<(), Fail> {
        let out = on_three(rt.alloc(), b"1=1")?;
        assert!(rt; out.as_str() == "FAULT 9 0\n");
        Ok(())
    }

    #[test]
    fn leading_zero(rt: HostRuntime) -> Result<(), Fail> {
        let out = on_three(rt.alloc(), b"C0=07")?;
        assert!(rt; out.as_str() == "FAULT 6 4\n");
        Ok(())
    }

    #[test]
    fn no_list(rt: HostRuntime) -> Result<(), Fail> {
        let mut lines = Vec::new(rt.alloc());
        for line in ["1 2 3", "4 five", "C0=1"] {
            lines.push(String::from_str(rt.alloc(), line)?)?;
        }
        let out = super::answer(rt.alloc(), &lines)?;
        assert!(rt; out.as_str() == "LIST 2\n");
        Ok(())
    }
}
