//! The sides and the relation of a comparison.
ghost use Rattle.std.specs.Prelude.{◌≡◌, ℕ, ◌≤◌, [], ◌∷◌, MatchResult};
ghost use Rattle.formulas.specs.Tree.{numeral, number_text, shift_text, side_text, relation_text, KnownNumber, KnownShift, KnownSide};
ghost use Rattle.formulas.specs.Faults.{Digit, NoDigitBefore};
ghost use Rattle.formulas.specs.Reading.{EndsShift, EndsSide, EndsRelation, AwaitsSide, AwaitsDigits};
ghost use Rattle.reader.specs.declared.cursor.Cursor.{Cursor};
ghost use Rattle.reader.specs.Places.{ahead, Reads, ClearTo, FirstIn, AwaitsShift};
ghost use Rattle.reader.specs.Read.{outside};

use crate::bytes::LIMIT;
use crate::cursor::Cursor;
use formulas::fault::{Flaw, FormulaFault};
use formulas::node::{Relation, Shift, Side};

// What is awaited stays a clause, as for conditions.
impl<'a> Cursor<'a> {
    /// A number without a minus.
    fn number(self) -> Result<(u32, Cursor<'a>), FormulaFault>
        requires awaits { AwaitsDigits 0 self.text.now.bytes.now self.at }
        requires fresh { NoDigitBefore self.text.now.bytes.now self.at }
        ensures { MatchResult result
            (λ v. Reads self.entry (numeral v.0) v.1 × (v.0 ≤ 1000000) × (Digit (ahead v.1) → ⊥))
            (λ e. ClearTo self.entry → FirstIn self.entry e) }
    {
        let (value, end) = self.digits()?;
        if value > LIMIT {
            return Err(self.fault(Flaw::Range));
        }
        if end.digit().is_some() {
            return Err(end.fault(Flaw::Grammar));
        }
        Ok((value, end))
    }

    /// A number with a minus, which stands here and before `digits`.
    fn negative(self, digits: Cursor<'a>) -> Result<(i32, Cursor<'a>), FormulaFault>
        requires awaits { AwaitsSide self.text.now.bytes.now self.at }
        requires minus { Reads self (45 ∷ []) digits }
        ensures { MatchResult result
            (λ v. Reads self.entry (number_text v.0) v.1 × KnownNumber v.0 × (Digit (ahead v.1) → ⊥))
            (λ e. ClearTo self.entry → FirstIn self.entry e) }
    {
        if digits.sees(b'0') {
            return Err(digits.fault(Flaw::Grammar));
        }
        let (value, end) = digits.digits()?;
        if value > LIMIT {
            return Err(self.fault(Flaw::Range));
        }
        // The value is proved to fit, so a conversion that can fail would add a case that never comes.
        Ok((-(value as i32), end))
    }

    /// What is added to the cell whose number ends here, or taken from it.
    fn shift(self) -> Result<(Shift, Cursor<'a>), FormulaFault>
        requires { AwaitsShift self }
        ensures { MatchResult result
            (λ v. Reads self.entry (shift_text v.0) v.1 × KnownShift v.0 × EndsShift v.0 (ahead v.1))
            (λ e. ClearTo self.entry → FirstIn self.entry e) }
    {
        if let Some(digits) = self.past(b'+') {
            let (value, end) = digits.number()?;
            return Ok((Shift::Plus(value), end));
        }
        if let Some(digits) = self.past(b'-') {
            let (value, end) = digits.number()?;
            return Ok((Shift::Minus(value), end));
        }
        Ok((Shift::Bare, self))
    }

    /// A cell, whose C stands here and before `name`, and its shift.
    fn cell(self, name: Cursor<'a>) -> Result<(Side, Cursor<'a>), FormulaFault>
        requires awaits { AwaitsSide self.text.now.bytes.now self.at }
        requires letter { Reads self (67 ∷ []) name }
        requires clear { ClearTo self }
        ensures { MatchResult result
            (λ v. Reads self.entry (side_text v.0) v.1 × KnownSide self.entry.text.now.cells v.0 × EndsSide v.0 (ahead v.1))
            (λ e. FirstIn self.entry e) }
    {
        let (cell, after) = name.digits()?;
        if cell >= u32::from(self.text.cells) {
            return Err(self.fault(Flaw::Range));
        }
        if after.digit().is_some() {
            return Err(after.fault(Flaw::Grammar));
        }
        let (shift, end) = after.shift()?;
        Ok((Side::Cell(cell as u8, shift), end))
    }

    /// One side of a comparison.
    // Always inlined: as a call of its own it hands the side and the place through memory, twice a comparison.
    #[inline(always)]
    pub(crate) fn side(self) -> Result<(Side, Cursor<'a>), FormulaFault>
        requires awaits { AwaitsSide self.text.now.bytes.now self.at }
        requires clear { ClearTo self }
        ensures { MatchResult result
            (λ v. Reads self.entry (side_text v.0) v.1 × KnownSide self.entry.text.now.cells v.0 × EndsSide v.0 (ahead v.1))
            (λ e. FirstIn self.entry e) }
    {
        if let Some(name) = self.past(b'C') {
            return self.cell(name);
        }
        if let Some(digits) = self.past(b'-') {
            let (value, end) = self.negative(digits)?;
            return Ok((Side::Number(value), end));
        }
        let (value, end) = self.number()?;
        Ok((Side::Number(value as i32), end))
    }

    /// The relation of a comparison.
    pub(crate) fn relation(self) -> Result<(Relation, Cursor<'a>), FormulaFault>
        ensures { MatchResult result
            (λ v. Reads self.entry (relation_text v.0) v.1 × EndsRelation v.0 (ahead v.1))
            (λ e. (e ≡ outside self.entry.at) × (60 ≤ ahead self.entry → ahead self.entry ≤ 62 → ⊥)) }
    {
        if let Some(end) = self.past(b'=') {
            return Ok((Relation::Equal, end));
        }
        if let Some(then) = self.past(b'<') {
            return Ok(then.less());
        }
        if let Some(then) = self.past(b'>') {
            return Ok(then.greater());
        }
        Err(self.fault(Flaw::Grammar))
    }

    /// The relation whose `<` stands before this place.
    fn less(self) -> (Relation, Cursor<'a>)
        ensures { (a : Cursor) → Reads a (60 ∷ []) self.entry → Reads a (relation_text result.0) result.1 × EndsRelation result.0 (ahead result.1) }
    {
        if let Some(end) = self.past(b'=') {
            return (Relation::LessEqual, end);
        }
        if let Some(end) = self.past(b'>') {
            return (Relation::NotEqual, end);
        }
        (Relation::Less, self)
    }

    /// The relation whose `>` stands before this place.
    fn greater(self) -> (Relation, Cursor<'a>)
        ensures { (a : Cursor) → Reads a (62 ∷ []) self.entry → Reads a (relation_text result.0) result.1 × EndsRelation result.0 (ahead result.1) }
    {
        match self.past(b'=') {
            Some(end) => (Relation::GreaterEqual, end),
            None => (Relation::Greater, self),
        }
    }
}
