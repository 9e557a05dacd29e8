//! Collects the different cells of stored nodes.
ghost use Rattle.std.specs.Prelude.{◌≡◌, ℕ, List, [], ◌∷◌};
ghost use Rattle.formulas.specs.Tree.{noted, side_cells};
ghost use Rattle.reader.specs.Mentions.{Holds, Found, mentioned, node_cells};

use crate::named::Named;
use formulas::node::{Node, Side};

/// The most different cells that a formula names.
const MOST: usize = 4;

// Always inlined: as calls of their own they copy what is found so far for each side of the text.
impl Named {
    /// With one more cell, if it is new; nothing where that is one too many.
    #[inline(always)]
    fn with(self, cell: u8) -> Option<Named>
        ensures { (cs : List ℕ) → Holds cs self → Found (noted cs (cell ∷ [])) result }
    {
        let kept = usize::from(self.count);
        if self.cells[..kept].contains(&cell) {
            return Some(self);
        }
        if kept == MOST {
            return None;
        }
        let mut cells = self.cells;
        cells[kept] = cell;
        Some(Named {
            cells,
            count: self.count + 1,
        })
    }

    /// With the cell of a side.
    #[inline(always)]
    fn with_side(self, side: Side) -> Option<Named>
        ensures { (cs : List ℕ) → Holds cs self → Found (noted cs (side_cells side)) result }
    {
        match side {
            Side::Number(_) => Some(self),
            Side::Cell(cell, _) => self.with(cell),
        }
    }

    /// With the cells of a node.
    fn with_node(self, node: Node) -> Option<Named>
        ensures { (cs : List ℕ) → Holds cs self → Found (noted cs (node_cells node)) result }
    {
        match node {
            Node::Compare(left, _, right) => self.with_side(left)?.with_side(right),
            Node::Free | Node::Not(_) | Node::And(_, _) | Node::Or(_, _) => Some(self),
        }
    }
}

/// The different cells that some nodes name, in the order of the nodes; nothing where they are more than four.
pub fn cells_of(nodes: &[Node]) -> Option<Named>
    ensures { Found (noted [] (mentioned nodes.now)) result }
{
    let mut named = Named {
        cells: [0; 4],
        count: 0,
    };
    for node in nodes {
        named = named.with_node(*node)?;
    }
    Some(named)
}
