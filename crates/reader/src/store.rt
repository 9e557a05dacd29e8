//! Lent nodes.
ghost use Rattle.std.specs.Prelude.{◌≤◌, length};

use formulas::node::Node;

/// Lent nodes, at most 32,768, of which the first `used` are taken; a node goes by its number.
// The host lends the memory, so the nodes are a slice with a count of those taken.
#[derive(Drop)]
pub struct Store<'a> {
    pub nodes: &'a mut [Node],
    pub used: usize,
    ghost few: { length nodes.now ≤ 32768 },
    ghost within: { used ≤ length nodes.now },
}
