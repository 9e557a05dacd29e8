//! The lines of a script.
ghost use Rattle.std.specs.Prelude.{◌≡◌, ◌≢◌, Bool, true, ◌∷◌, map, codes, IfOk, MatchOption, slice_set};
ghost use Rattle.script.specs.Words.{words_of, IsNumber, cell_number};
ghost use Rattle.script.specs.Script.{on_word, Decided, ReadAs, texts_of, IsScript};

use crate::number::number;
use crate::words::words;
use calls::call::Call;
use std::alloc::{AllocError, Global};

/// A line of a script.
#[derive(Clone, Copy, Debug, PartialEq, Eq)]
pub enum Line {
    /// Nothing but blanks, or a comment.
    Blank,
    /// A call on the session.
    Call(Call),
    /// A new session, over the book with the flagged rules turned round.
    Turn([bool; 64]),
    /// None of these.
    NotUnderstood,
}

/// The number of a cell or of a place.
fn small(word: &[u8]) -> Option<u8>
    ensures { MatchOption result (IsNumber word.now → ⊥) (λ n. IsNumber word.now × (n ≡ cell_number word.now)) }
{
    let number = number(word)?;
    Some(number.min(255) as u8)
}

/// What follows `pin`.
fn pin(rest: &[&[u8]]) -> Option<Line>
    ensures { Decided (codes "pin" ∷ map (λ w. w.now) rest.now) result }
{
    let [cell, place] = rest else {
        return None;
    };
    let cell = small(cell)?;
    let place = small(place)?;
    Some(Line::Call(Call::Pin { cell, place }))
}

/// What follows `free`.
fn free(rest: &[&[u8]]) -> Option<Line>
    ensures { Decided (codes "free" ∷ map (λ w. w.now) rest.now) result }
{
    let [cell] = rest else {
        return None;
    };
    let cell = small(cell)?;
    Some(Line::Call(Call::Free { cell }))
}

/// Whether a word says on or off, if it says either.
#[tactic(auto, using(crate::proofs::Reading::no_on_word))]
fn on_or_off(word: &[u8]) -> Option<bool>
    ensures { MatchOption result ((on : Bool) → word.now ≢ on_word on) (λ on. word.now ≡ on_word on) }
{
    if word == b"on".as_slice() {
        Some(true)
    } else if word == b"off".as_slice() {
        Some(false)
    } else {
        None
    }
}

/// What follows `switch`.
fn switch(rest: &[&[u8]]) -> Option<Line>
    ensures { Decided (codes "switch" ∷ map (λ w. w.now) rest.now) result }
{
    let [rule, word] = rest else {
        return None;
    };
    let rule = number(rule)?;
    let on = on_or_off(word)?;
    Some(Line::Call(Call::Switch { rule, on }))
}

/// What follows `fit`: nothing.
fn fit(rest: &[&[u8]]) -> Option<Line>
    ensures { Decided (codes "fit" ∷ map (λ w. w.now) rest.now) result }
{
    if !rest.is_empty() {
        return None;
    }
    Some(Line::Call(Call::Fit))
}

/// Sets the flag of a rule, if it has one.
fn set_flag(flags: &mut [bool; 64], rule: u16)
    ensures { flags.new ≡ slice_set flags.old rule true }
{
    let rule = usize::from(rule);
    if rule < 64 {
        flags[rule] = true;
    }
}

/// What follows `turn`.
fn turn(rest: &[&[u8]]) -> Option<Line>
    ensures { Decided (codes "turn" ∷ map (λ w. w.now) rest.now) result }
{
    let mut flags = [false; 64];
    for word in rest {
        let rule = number(word)?;
        set_flag(&mut flags, rule);
    }
    Some(Line::Turn(flags))
}

/// What the words of a line say, of which this is the first.
#[tactic(auto, using(crate::proofs::Reading::comment_line))]
fn said(first: &[u8], rest: &[&[u8]]) -> Option<Line>
    ensures { Decided (first.now ∷ map (λ w. w.now) rest.now) result }
{
    if let [b'#', ..] = first {
        return Some(Line::Blank);
    }
    if first == b"pin".as_slice() {
        pin(rest)
    } else if first == b"free".as_slice() {
        free(rest)
    } else if first == b"switch".as_slice() {
        switch(rest)
    } else if first == b"fit".as_slice() {
        fit(rest)
    } else if first == b"turn".as_slice() {
        turn(rest)
    } else {
        None
    }
}

/// Reads a line: what its words say, and that it is not understood where they say nothing.
pub fn read(heap: Global, text: &[u8]) -> Result<Line, AllocError>
    ensures reads { IfOk result (λ l. ReadAs text.now l) }
    ensures only { IfOk result (λ l. (other : Line) → ReadAs text.now other → other ≡ l) }
{
    let words = words(heap, text)?;
    let Some((first, rest)) = words.split_first() else {
        return Ok(Line::Blank);
    };
    Ok(said(first, rest).unwrap_or(Line::NotUnderstood))
}

/// The texts of a script's lines.
fn texts(heap: Global, script: &[u8]) -> Result<Vec<&[u8]>, AllocError>
    ensures { IfOk result (λ v. map (λ t. t.now) v.items ≡ texts_of script.now) }
{
    script.split(|byte| *byte == b'\n').collect(heap)
}

/// Reads a script, line by line.
pub fn lines(heap: Global, script: &[u8]) -> Result<Vec<Line>, AllocError>
    ensures { IfOk result (λ v. IsScript script.now v.items) }
{
    let texts = texts(heap, script)?;
    let mut lines = Vec::new(heap);
    for text in &texts {
        lines.push(read(heap, text)?)?;
    }
    Ok(lines)
}

#[cfg(test)]
mod tests {
    use super::*;
    use std::test::Fail;

    #[test]
    fn one_line(rt: HostRuntime) -> Result<(), Fail> {
        let line = read(rt.alloc(), b" pin  3 300\r")?;
        assert_eq!(rt;
            line,
            Line::Call(Call::Pin {
                cell: 3,
                place: 255
            })
        );
        Ok(())
    }

    #[test]
    fn some_lines(rt: HostRuntime) -> Result<(), Fail> {
        let lines = lines(rt.alloc(), b"switch 70000 off\nswitch 0\n# fit\nfit")?;
        assert_eq!(rt;
            lines.as_slice(),
            [
                Line::Call(Call::Switch {
                    rule: 65535,
                    on: false
                }),
                Line::NotUnderstood,
                Line::Blank,
                Line::Call(Call::Fit),
            ]
            .as_slice()
        );
        Ok(())
    }
}
