//! The different cells that a formula names.
ghost use Rattle.std.specs.Prelude.{◌≤◌};

/// At most four different cells in the order of their first appearance, zeros after them.
// The library works without a heap, so the cells are an array with a count.
#[derive(Clone, Copy)]
pub struct Named {
    pub cells: [u8; 4],
    pub count: u8,
    ghost few: { count ≤ 4 },
}
