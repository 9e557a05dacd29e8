//! The truth of stored formulas at the cells' numbers. Uses `formulas`.
#![tactic(auto)]

ghost use Rattle.std.specs.Prelude.{◌≡◌, ℕ, ◌<◌, ℤ, pos, slice_index_or};
ghost use Rattle.formulas.specs.declared.node.Node.TheVariants.{Free};
ghost use Rattle.formulas.specs.Tree.{Condition};
ghost use Rattle.formulas.specs.Truth.{truth, related, worth, shifted};
ghost use Rattle.formulas.specs.Layout.{Stands};
ghost use Rattle.judge.specs.Trees.{tree};

use formulas::node::{Node, Relation, Shift, Side};

/// A cell's number with its shift; 64 bits hold any sum.
fn shift_by(number: i32, shift: Shift) -> i64
    ensures { result ≡ shifted number shift }
{
    let number = i64::from(number);
    match shift {
        Shift::Bare => number,
        Shift::Plus(n) => number + i64::from(n),
        Shift::Minus(n) => number - i64::from(n),
    }
}

// One line, as `formula_book` and `report` have it of a place of a list.
/// The number of a cell, 0 where it has none.
pub fn number_of(cell: u8, numbers: &[i32]) -> i32
    ensures { result ≡ slice_index_or numbers.now cell (pos 0) }
{
    numbers.get(usize::from(cell)).copied().unwrap_or(0)
}

/// What a side comes to; a cell that has no number counts as 0.
fn worth_of(side: Side, numbers: &[i32]) -> i64
    ensures { result ≡ worth numbers.now side }
{
    match side {
        Side::Number(n) => i64::from(n),
        Side::Cell(cell, shift) => shift_by(number_of(cell, numbers), shift),
    }
}

/// Whether a relation holds between two numbers.
fn is_related(by: Relation, a: i64, b: i64) -> bool
    ensures { result ≡ related by a b }
{
    match by {
        Relation::Equal => a == b,
        Relation::NotEqual => a != b,
        Relation::Less => a < b,
        Relation::LessEqual => a <= b,
        Relation::Greater => a > b,
        Relation::GreaterEqual => a >= b,
    }
}

/// Whether the condition that a stored node stands for is true, at the number of each cell.
/// A free node, and a child whose number is not smaller, count as never true; no formula that was read has one.
#[tactic(auto, using(crate::proofs::Trees::stood))]
pub fn holds(nodes: &[Node], at: u16, numbers: &[i32]) -> bool
    ensures stands { (c : Condition) → Stands nodes.now at c → result ≡ truth numbers.now c }
    ensures any_node { (n : ℕ) → at < n → result ≡ truth numbers.now (tree n nodes.now at) }
{
    match node_at(nodes, at) {
        Node::Free => false,
        Node::Compare(left, by, right) => is_related(
            by,
            worth_of(left, numbers),
            worth_of(right, numbers),
        ),
        Node::Not(child) => !(child < at && holds(nodes, child, numbers)),
        Node::And(first, rest) => {
            first < at && holds(nodes, first, numbers) && rest < at && holds(nodes, rest, numbers)
        }
        Node::Or(first, rest) => {
            first < at && holds(nodes, first, numbers) || rest < at && holds(nodes, rest, numbers)
        }
    }
}

/// A stored node, a free one where it is missing.
fn node_at(nodes: &[Node], at: u16) -> Node
    ensures { result ≡ slice_index_or nodes.now at Free }
{
    nodes.get(usize::from(at)).copied().unwrap_or(Node::Free)
}
