//! The head of a field: its tag and length, and the faults that these alone decide.
ghost use Rattle.std.specs.Prelude.{◌≡◌, ◌+◌, ◌<◌, ◌≤◌, ◌≢◌, ◌⊎◌, length, drop, IfOk, Decides, MatchResult};
ghost use Rattle.sheets.specs.declared.fault.LoadFault.TheVariants.{Cut, Many, Tag as Misplaced};
ghost use Rattle.sheets.specs.Sheet.{Sheet};
ghost use Rattle.sheets.specs.Stored.{extent_of};
ghost use Rattle.sheets.specs.Reading.{Wrong};
ghost use Rattle.load.specs.Fields.{Comes, Filled, Unfilled, Headed};

use crate::field::Head;
use crate::loading::Loading;
use sheets::fault::LoadFault;
use sheets::stores::{CELLS, RULES};
use sheets::tag::Tag;

/// The end field has no content, and nothing comes after it.
fn check_end(file: &[u8], at: usize, size: usize) -> Result<(), LoadFault>
    requires { at + 3 ≤ length file.now }
    ensures { MatchResult result
        (λ _. (size ≡ 0) × (length file.now ≡ at + 3))
        (λ e. ((e ≡ Misplaced at) × (size ≢ 0)) ⊎ ((e ≡ Misplaced (at + 3)) × (size ≡ 0) × (at + 3 < length file.now))) }
{
    if size != 0 {
        return Err(LoadFault::Tag(at));
    }
    if file.len() > at + 3 {
        return Err(LoadFault::Tag(at + 3));
    }
    Ok(())
}

impl Loading<'_, '_> {
    /// Whether a field of this tag can come: cells before rules by rows, these before rules by formulas, then the end.
    fn comes(&self, tag: Tag) -> bool
        ensures { Decides result (Comes tag self.now.extent) }
    {
        match tag {
            Tag::Cell => self.extent.rules == 0 && self.extent.formulas == 0,
            Tag::Rows => self.extent.formulas == 0,
            Tag::Formula | Tag::End => true,
        }
    }

    /// Whether a field of this tag would be the 65th cell or the 65th rule.
    fn is_full(&self, tag: Tag) -> bool
        ensures { Decides result (Filled tag self.now.extent) }
    {
        match tag {
            Tag::Cell => self.extent.cells == CELLS,
            Tag::Rows | Tag::Formula => self.extent.rules + self.extent.formulas == RULES,
            Tag::End => false,
        }
    }

    /// Any field but the end has all of its content, and is not one too many.
    fn check_content(&self, file: &[u8], at: usize, size: usize, tag: Tag) -> Result<(), LoadFault>
        requires { at + 3 ≤ length file.now }
        ensures { MatchResult result
            (λ _. (at + 3 + size ≤ length file.now) × (Filled tag self.now.extent → ⊥))
            (λ e. ((e ≡ Cut at) × (length file.now < at + 3 + size)) ⊎ ((e ≡ Many at) × (at + 3 + size ≤ length file.now) × Filled tag self.now.extent)) }
    {
        if file.len() - at - 3 < size {
            return Err(LoadFault::Cut(at));
        }
        if self.is_full(tag) {
            return Err(LoadFault::Many(at));
        }
        Ok(())
    }

    /// The head of the field at `at`. Its tag is checked first, then its length, then whether it is one too many.
    pub(crate) fn head(&self, file: &[u8], at: usize) -> Result<Head, LoadFault>
        requires { at ≤ length file.now }
        ensures inside { IfOk result (λ h. at + 3 + h.length ≤ length file.now) }
        ensures room { IfOk result (λ h. Unfilled h.tag self.now.extent) }
        ensures decided { (s : Sheet) → self.now.extent ≡ extent_of s → MatchResult result
            (λ h. Headed s (drop at file.now) h.tag h.length)
            (λ e. Wrong s at (drop at file.now) e) }
    {
        let Some(&byte) = file.get(at) else {
            return Err(LoadFault::Cut(at));
        };
        let Ok(tag) = Tag::try_from(byte) else {
            return Err(LoadFault::Tag(at));
        };
        if !self.comes(tag) {
            return Err(LoadFault::Tag(at));
        }
        if file.len() - at < 3 {
            return Err(LoadFault::Cut(at));
        }
        let length = u16::from_be_bytes([file[at + 1], file[at + 2]]) as usize;
        match tag {
            Tag::End => check_end(file, at, length)?,
            Tag::Cell | Tag::Rows | Tag::Formula => self.check_content(file, at, length, tag)?,
        }
        Ok(Head { tag, length })
    }
}
