//! Whole formulas.
ghost use Rattle.std.specs.Prelude.{◌≡◌, ℕ, ◌+◌, ◌-◌, ◌≤◌, ◌++◌, length, take, replicate, Decides, MatchResult};
ghost use Rattle.formulas.specs.declared.node.Node.TheVariants.{Free};
ghost use Rattle.formulas.specs.Tree.{Condition};
ghost use Rattle.formulas.specs.Faults.{Accepted};
ghost use Rattle.reader.specs.Places.{FirstIn};
ghost use Rattle.reader.specs.Stores.{Kept, Room};
ghost use Rattle.reader.specs.Mentions.{Found, named_from};
ghost use Rattle.reader.specs.Read.{FirstOf};
ghost use Rattle.reader.specs.Formula.{ReadFormula, Fits, NotRead, Decided};

use crate::cursor::{Cursor, Text};
use crate::mentions::cells_of;
use crate::named::Named;
use crate::nested::Nested;
use crate::store::Store;
use crate::unread::Unread;
use formulas::fault::{Flaw, FormulaFault};
use formulas::node::Node;

/// The nodes that suffice for the formulas of any sheet file.
pub const NODES: usize = 32768;

/// A formula in the store: its root, and its cells in the order of their first appearance, with zeros after them.
// The library works in lent memory, so the root is a node's number, and the cells are an array with a count.
#[derive(Clone, Copy, Debug, Default, PartialEq, Eq)]
pub struct Formula {
    pub root: u16,
    pub width: u8,
    pub cells: [u8; 4],
}

/// Reads a formula on the first `cells` cells, and stores its nodes from `used` on. Refused, it leaves the nodes below `used` as they were and the
/// others free; where the store cannot take it, that is untouched. No text is that of two conditions (`one`), so the condition read is the one meant.
// The host lends the nodes, so the caller keeps them with a count of those taken.
#[tactic(auto, using(formulas::proofs::Exact::accepted_unique))]
pub fn read(
    bytes: &[u8],
    cells: u8,
    nodes: &mut [Node],
    used: &mut usize,
) -> Result<Formula, Unread>
    ensures read { MatchResult result
        (λ f. ReadFormula cells bytes.now nodes.old used.old nodes.new used.new f)
        (λ e. NotRead cells bytes.now nodes.old used.old nodes.new used.new e) }
    ensures exact { Decided cells bytes.now nodes.old used.old result }
    ensures one { (c d : Condition) → Accepted cells bytes.now c → Accepted cells bytes.now d → c ≡ d }
{
    if !can_take(nodes, *used, bytes) {
        return Err(Unread::NoRoom);
    }
    match read_into(bytes, cells, nodes, used) {
        Ok(formula) => Ok(formula),
        Err(fault) => Err(Unread::Fault(fault)),
    }
}

/// Whether a store can take what is read of a text.
fn can_take(nodes: &[Node], used: usize, bytes: &[u8]) -> bool
    ensures { Decides result (Fits bytes.now nodes.now used) }
{
    nodes.len() <= NODES && used <= nodes.len() && bytes.len() <= nodes.len() - used
}

/// Reads a formula into a store that can take it.
fn read_into(
    bytes: &[u8],
    cells: u8,
    nodes: &mut [Node],
    used: &mut usize,
) -> Result<Formula, FormulaFault>
    requires { Fits bytes.now nodes.old used.old }
    ensures { MatchResult result
        (λ f. ReadFormula cells bytes.now nodes.old used.old nodes.new used.new f)
        (λ e. FirstOf cells bytes.now e × (used.new ≡ used.old)
        × (nodes.new ≡ take used.old nodes.old ++ replicate (length nodes.old - used.old) Free)) }
{
    let text = Text { bytes, cells };
    let start = Cursor { text: &text, at: 0 };
    let mut store = Store { nodes, used: *used };
    match store.whole(start) {
        Ok(formula) => {
            *used = store.used;
            Ok(formula)
        }
        Err(fault) => {
            let Store { nodes, .. } = store;
            clear(nodes, *used);
            Err(fault)
        }
    }
}

/// Frees all nodes from a place on.
fn clear(nodes: &mut [Node], from: usize)
    requires { from ≤ length nodes.old }
    ensures { nodes.new ≡ take from nodes.old ++ replicate (length nodes.old - from) Free }
{
    nodes[from..].fill(Node::Free);
}

impl<'a> Store<'a> {
    /// The different cells that the nodes from a place on name; nothing where they are more than four.
    fn named(&self, from: usize) -> Option<Named>
        requires order { from ≤ self.now.used }
        ensures { Found (named_from self.now from) result }
    {
        cells_of(&self.nodes[from..self.used])
    }

    /// Reads a formula at the start of its text and stores its nodes; refused, it may leave some of them.
    fn whole(&mut self, start: Cursor<'_>) -> Result<Formula, FormulaFault>
        requires first { start.at ≡ 0 }
        requires room { Room self.old start }
        ensures read { MatchResult result
            (λ f. ReadFormula start.entry.text.now.cells start.entry.text.now.bytes.now self.old.nodes.now self.old.used self.new.nodes.now self.new.used f)
            (λ e. FirstIn start.entry e) }
        ensures kept { Kept self.old self.new }
    {
        let from = self.used;
        let place = Nested {
            at: start,
            level: 1,
        };
        let end = self.condition(&place)?;
        if end.byte().is_some() {
            return Err(end.fault(Flaw::Grammar));
        }
        match self.named(from) {
            Some(named) if named.count > 0 => {
                let cells = named.cells;
                Ok(Formula {
                    root: self.last(),
                    width: named.count,
                    cells,
                })
            }
            _ => Err(start.fault(Flaw::Cells)),
        }
    }
}
