//! Load: a whole file.
ghost use Rattle.std.specs.Prelude.{◌≡◌, ◌≤◌, length, Decides, MatchOption, MatchResult};
ghost use Rattle.sheets.specs.Sheet.{Sheet, empty};
ghost use Rattle.sheets.specs.Stored.{Enough, held, zeroed};
ghost use Rattle.sheets.specs.Reading.{ReadAs, RefusedWith};
ghost use Rattle.load.specs.Fields.{Kept, Holds, Begun, Room, Advanced};
ghost use Rattle.load.specs.Load.{ReadSheet, Refused, Exact};

use crate::loading::Loading;
use formulas::node::Node;
use reader::formula::{Formula, NODES};
use rows::rule::RowsRule;
use sheets::fault::LoadFault;
use sheets::stores::{CELLS, Extent, FILE, NUMBERS, PLACES, RULES, Stores};
use sheets::tag::Tag;

impl Loading<'_, '_> {
    /// The field at `at`, stored after what is there, and where the next one begins; none begins after the end field.
    fn field(&mut self, file: &[u8], at: usize) -> Result<Option<usize>, LoadFault>
        requires { Room file.now at self.old.extent }
        ensures kept { Kept self.old self.new }
        ensures advances { (s : Sheet) → Begun file.now at s → Holds self.old s → MatchResult result
            (λ o. MatchOption o (ReadAs file.now s × Holds self.new s) (λ next. Advanced file.now at self.new next))
            (λ e. RefusedWith file.now e) }
    {
        let head = self.head(file, at)?;
        let end = at + 3 + head.length;
        let content = &file[at + 3..end];
        match head.tag {
            Tag::Cell => self.cell(content, at)?,
            Tag::Rows => self.rows(content, at)?,
            Tag::Formula => self.formula(content, at)?,
            Tag::End => return Ok(None),
        }
        Ok(Some(end))
    }

    /// All fields, in order.
    fn fields(&mut self, file: &[u8]) -> Result<(), LoadFault>
        requires short { length file.now ≤ 32768 }
        requires blank { Holds self.old empty }
        ensures kept { Kept self.old self.new }
        ensures decided { MatchResult result
            (λ _. (s : Sheet) × ReadAs file.now s × Holds self.new s)
            (λ e. RefusedWith file.now e) }
    {
        let mut at = 0;
        while let Some(next) = self.field(file, at)? {
            at = next;
        }
        Ok(())
    }
}

/// Whether every store has its published size.
fn are_enough(stores: &Stores<'_>) -> bool
    ensures { Decides result (Enough (held stores.now)) }
{
    stores.lengths.len() >= CELLS
        && stores.numbers.len() >= NUMBERS
        && stores.rules.len() >= RULES
        && stores.places.len() >= PLACES
        && stores.formulas.len() >= RULES
        && stores.nodes.len() >= NODES
}

/// Makes every store zero.
fn clear(stores: &mut Stores<'_>)
    ensures { held stores.new ≡ zeroed (held stores.old) }
{
    stores.lengths.fill(0);
    stores.numbers.fill(0);
    stores.rules.fill(RowsRule::default());
    stores.places.fill(0);
    stores.formulas.fill(Formula::default());
    stores.nodes.fill(Node::Free);
}

/// Reads a sheet file into the stores. It is read exactly if it is the file of a good sheet, which then stands in the stores, and they are zero past it.
/// Otherwise it is refused with its first fault, and the stores are zero; untouched where the file is too long or a store too small.
/// No file is that of two sheets (`one`), so the sheet that stands in the stores is the one meant.
#[tactic(auto, using(sheets::proofs::Exact::read_unique))]
pub fn load(file: &[u8], stores: &mut Stores<'_>) -> Result<Extent, LoadFault>
    ensures loads { MatchResult result
        (λ e. ReadSheet file.now (held stores.old) (held stores.new) e)
        (λ e. Refused file.now (held stores.old) (held stores.new) e) }
    ensures exact { Exact file.now (held stores.old) result }
    ensures one { (s t : Sheet) → ReadAs file.now s → ReadAs file.now t → s ≡ t }
{
    if file.len() > FILE || !are_enough(stores) {
        return Err(LoadFault::Size);
    }
    clear(stores);
    let mut loading = Loading {
        stores,
        extent: Extent::default(),
    };
    match loading.fields(file) {
        Ok(()) => Ok(loading.extent),
        Err(fault) => {
            clear(stores);
            Err(fault)
        }
    }
}
