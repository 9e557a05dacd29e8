//! The stores that a sheet is read into, owned: a program makes them once and lends them. And what reading a file into them comes to.
//! Uses `formulas`, `reader`, `rows`, `sheets`, `load` and `sheet_books`.
#![tactic(auto)]

ghost use Rattle.std.specs.Prelude.{◌≡◌, IfOk};
ghost use Rattle.sheets.specs.Stored.{Enough, held, zeroed};
ghost use Rattle.storage.specs.Owned.{owned};

use formulas::node::Node;
use reader::formula::{Formula, NODES};
use rows::rule::RowsRule;
use sheets::stores::{CELLS, NUMBERS, PLACES, RULES, Stores};
use std::alloc::{AllocError, Global};

/// Stores of the published sizes, which are lent as `Stores`.
#[derive(Drop)]
pub struct Storage {
    lengths: Vec<u8>,
    numbers: Vec<i32>,
    rules: Vec<RowsRule>,
    places: Vec<u8>,
    formulas: Vec<Formula>,
    nodes: Vec<Node>,
}

impl Storage {
    /// Stores of the published sizes, all zero.
    pub fn new(heap: Global) -> Result<Storage, AllocError>
        ensures enough { IfOk result (λ s. Enough (owned s)) }
        ensures zero { IfOk result (λ s. owned s ≡ zeroed (owned s)) }
    {
        let lengths = vec![in heap; 0u8; CELLS]?;
        let numbers = vec![in heap; 0i32; NUMBERS]?;
        let rules = vec![in heap; RowsRule::default(); RULES]?;
        let places = vec![in heap; 0u8; PLACES]?;
        let formulas = vec![in heap; Formula::default(); RULES]?;
        let nodes = vec![in heap; Node::Free; NODES]?;
        Ok(Storage {
            lengths,
            numbers,
            rules,
            places,
            formulas,
            nodes,
        })
    }

    /// Lends the stores as they are.
    pub fn lend(&mut self) -> Stores<'_>
        ensures { held result ≡ owned self.old }
    {
        Stores {
            lengths: &mut self.lengths,
            numbers: &mut self.numbers,
            rules: &mut self.rules,
            places: &mut self.places,
            formulas: &mut self.formulas,
            nodes: &mut self.nodes,
        }
    }
}
