//! Bytes and words at a place of a text.
ghost use Rattle.std.specs.Prelude.{◌≡◌, ℕ, ◌+◌, ◌<◌, ◌≤◌, ◌≢◌, ◌⊎◌, ◌↔◌, IsTrue, [], ◌∷◌, length, MatchOption, MatchResult};
ghost use Rattle.formulas.specs.Tree.{numeral};
ghost use Rattle.formulas.specs.Faults.{Digit};
ghost use Rattle.reader.specs.Places.{ahead, Reads};
ghost use Rattle.reader.specs.Read.{outside, Misspelled};

use crate::cursor::Cursor;
use formulas::fault::{Flaw, FormulaFault};

/// The largest number that digits may stand for.
pub const LIMIT: u32 = 1000000;

impl<'a> Cursor<'a> {
    /// A flaw that is found here.
    pub fn fault(self, flaw: Flaw) -> FormulaFault
        ensures { result ≡ record { flaw = flaw; offset = self.entry.at } }
    {
        FormulaFault {
            flaw,
            offset: self.at,
        }
    }

    /// The byte that stands here; nothing where the text ends.
    pub fn byte(self) -> Option<u8>
        ensures { MatchOption result (length self.entry.text.now.bytes.now ≤ self.entry.at) (λ b. (ahead self.entry ≡ b) × (b < 256)) }
    {
        self.text.bytes.get(self.at).copied()
    }

    /// Whether the byte `b` stands here.
    pub fn sees(self, b: u8) -> bool
        ensures { IsTrue result ↔ (ahead self.entry ≡ b) }
    {
        self.byte() == Some(b)
    }

    /// The place after the byte `b`, if it stands here.
    pub fn past(self, b: u8) -> Option<Cursor<'a>>
        ensures { MatchOption result (ahead self.entry ≢ b) (λ end. Reads self.entry (b ∷ []) end) }
    {
        if !self.sees(b) {
            return None;
        }
        Some(Cursor {
            text: self.text,
            at: self.at + 1,
        })
    }

    /// The place after the byte `b`, which has to stand here.
    pub fn expect(self, b: u8) -> Result<Cursor<'a>, FormulaFault>
        ensures { MatchResult result (λ end. Reads self.entry (b ∷ []) end) (λ e. (e ≡ outside self.entry.at) × (ahead self.entry ≢ b)) }
    {
        self.past(b).ok_or(self.fault(Flaw::Grammar))
    }

    /// The place after a word, which has to stand here; otherwise the first byte that differs from it is the fault.
    pub fn word(self, word: &[u8]) -> Result<Cursor<'a>, FormulaFault>
        ensures { MatchResult result (λ end. Reads self.entry word.now end) (λ e. Misspelled self.entry.text.now.bytes.now self.entry.at word.now e) }
    {
        let mut end = self;
        for b in word {
            end = end.expect(*b)?;
        }
        Ok(end)
    }

    /// The digit that stands here, and the place after it.
    pub fn digit(self) -> Option<(u8, Cursor<'a>)>
        ensures { MatchOption result (Digit (ahead self.entry) → ⊥) (λ d. (d.0 ≤ 9) × Reads self.entry ((48 + d.0) ∷ []) d.1) }
    {
        let b = self.byte()?;
        if !b.is_ascii_digit() {
            return None;
        }
        let end = Cursor {
            text: self.text,
            at: self.at + 1,
        };
        Some((b - b'0', end))
    }

    /// The number that digits here stand for, and the place after them. Past the limit no further digit is read.
    pub fn digits(self) -> Result<(u32, Cursor<'a>), FormulaFault>
        ensures { MatchResult result
            (λ v. Reads self.entry (numeral v.0) v.1 × (v.0 ≤ 1000000 → (Digit (ahead v.1) → ⊥) ⊎ (v.0 ≡ 0)))
            (λ e. (e ≡ outside self.entry.at) × (Digit (ahead self.entry) → ⊥)) }
    {
        let Some((first, mut end)) = self.digit() else {
            return Err(self.fault(Flaw::Grammar));
        };
        let mut value = u32::from(first);
        if value == 0 {
            return Ok((0, end));
        }
        while value <= LIMIT {
            let Some((digit, next)) = end.digit() else {
                return Ok((value, end));
            };
            value = value * 10 + u32::from(digit);
            end = next;
        }
        Ok((value, end))
    }
}
