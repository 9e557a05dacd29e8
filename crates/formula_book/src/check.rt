//! Which stores make a formula book.
ghost use Rattle.std.specs.Prelude.{◌≡◌, ℕ, suc, ◌<◌, true, [], length, Decides, slice_index_or};
ghost use Rattle.formulas.specs.Tree.{Condition};
ghost use Rattle.formulas.specs.Layout.{Stands};
ghost use Rattle.formula_book.specs.Trees.{child, grounded};
ghost use Rattle.formula_book.specs.Formulas.{WellFormed, GoodRule, MeansCondition, formula_book, no_formula};
ghost use Rattle.formula_book.specs.Support.{lists_of};

use crate::book::FormulaBook;
use formulas::node::Node;
use network::cells::are_good;
use reader::formula::Formula;

impl<'a> FormulaBook<'a> {
    // As in a rows book, whose stores are others: a function for both would be handed all that differs.
    /// The book of these stores, and the book without rules where they are not well formed.
    pub fn new(
        formulas: &'a [Formula],
        nodes: &'a [Node],
        lengths: &'a [u8],
        numbers: &'a [i32],
    ) -> FormulaBook<'a>
        ensures taken { WellFormed nodes.now formulas.now → result.formulas.now ≡ formulas.now }
        ensures refused { (WellFormed nodes.now formulas.now → ⊥) → result.formulas.now ≡ [] }
        ensures nodes { result.nodes.now ≡ nodes.now }
        ensures lengths { result.lengths.now ≡ lengths.now }
        ensures numbers { result.numbers.now ≡ numbers.now }
        ensures means { (r : ℕ) (c : Condition) → Stands nodes.now (slice_index_or result.formulas.now r no_formula).root c → MeansCondition (lists_of lengths.now numbers.now) c
            ((formula_book (lists_of lengths.now numbers.now) nodes.now result.formulas.now).rule r) }
    {
        if is_well_formed(nodes, formulas) {
            return FormulaBook {
                formulas,
                nodes,
                lengths,
                numbers,
            };
        }
        FormulaBook {
            formulas: &[],
            nodes,
            lengths,
            numbers,
        }
    }
}

/// Whether there are at most 65,535 formulas, and each is fit.
pub fn is_well_formed(nodes: &[Node], formulas: &[Formula]) -> bool
    ensures { Decides result (WellFormed nodes.now formulas.now) }
{
    formulas.len() <= 65535 && formulas.iter().all(|formula| is_fit(nodes, formula))
}

/// Whether the cells of a formula are good, and its root stands for a condition.
fn is_fit(nodes: &[Node], formula: &Formula) -> bool
    ensures { Decides result (GoodRule nodes.now formula.now) }
{
    formula.width <= 4
        && are_good(&formula.cells[..formula.width as usize])
        && (formula.root as usize) < nodes.len()
        && is_grounded(nodes, formula.root)
}

/// Whether no free node is met from a node, and every child has a smaller number than its parent.
#[cycle(is_child_is_grounded)]
fn is_grounded(nodes: &[Node], at: u16) -> bool
    requires { at < length nodes.now }
    ensures { result ≡ grounded (suc at) nodes.now at }
{
    let node = nodes[at as usize];
    match node {
        Node::Free => false,
        Node::Compare(_, _, _) => true,
        Node::Not(only) => is_child(nodes, at, only),
        Node::And(first, rest) | Node::Or(first, rest) => {
            is_child(nodes, at, first) && is_child(nodes, at, rest)
        }
    }
}

/// Whether a node has a smaller number than its parent, and only such are met from it.
#[cycle(is_child_is_grounded)]
fn is_child(nodes: &[Node], parent: u16, at: u16) -> bool
    requires { parent < length nodes.now }
    ensures { result ≡ child (grounded parent nodes.now) parent at }
{
    at < parent && is_grounded(nodes, at)
}
