//! Which rows a formula permits, as a text. Uses `formulas`, `reader`, `judge` and `text`.
#![tactic(auto)]

ghost use Rattle.std.specs.Prelude.{◌≡◌, ℕ, ◌≤◌, List, ◌++◌, length, IfOk, OnOk, string_bytes};
ghost use Rattle.preview.specs.Preview.{Tells, Exactly};

use crate::lists::Lists;
use crate::rows::{Trial, push_permits};
use formulas::node::Node;
use reader::formula::{NODES, read};
use std::alloc::{AllocError, Global};
use text::push_fault;

mod lines;
mod lists;
mod rows;

/// The text for a formula on some cells' lists: cell c's list is the first `lengths[c]` of the 64 numbers from `64 * c` on.
pub fn preview(
    heap: Global,
    lengths: &[u8],
    numbers: &[i32],
    formula: &[u8],
) -> Result<String, AllocError>
    ensures tells { IfOk result (λ v. Tells lengths.now numbers.now formula.now (string_bytes v)) }
    ensures exactly { IfOk result (λ v. Exactly lengths.now numbers.now formula.now (string_bytes v)) }
{
    let Some(lists) = Lists::new(lengths, numbers) else {
        return String::from_str(heap, "LISTS\n");
    };
    if formula.len() > NODES {
        return String::from_str(heap, "LONG\n");
    }
    let mut out = String::new(heap);
    let mut nodes = vec![in heap; Node::Free; NODES]?;
    push_answer(&mut out, &mut nodes, lists, formula)?;
    Ok(out)
}

/// The text for a formula that is not too long.
fn push_answer(
    out: &mut String,
    nodes: &mut [Node],
    lists: Lists<'_>,
    formula: &[u8],
) -> Result<(), AllocError>
    requires short { length formula.now ≤ 32768 }
    requires store { length nodes.old ≡ 32768 }
    ensures { OnOk result ((t : List ℕ) × (string_bytes out.new ≡ string_bytes out.old ++ t) × Tells lists.entry.lengths.now lists.entry.numbers.now formula.now t) }
{
    let mut used = 0;
    match read(formula, lists.lengths.len() as u8, nodes, &mut used) {
        Err(unread) => push_fault(out, unread.number(), unread.offset()),
        Ok(stored) => {
            let width = usize::from(stored.width);
            let trial = Trial {
                nodes,
                root: stored.root,
                cells: &stored.cells[..width],
                lists,
            };
            push_permits(out, &trial)
        }
    }
}
