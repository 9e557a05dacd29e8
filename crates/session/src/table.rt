//! Pins, switches and weights.

/// The place that each cell is pinned to, whether each rule is on, and the weight of each rule.
// Arrays of 64: a session has no heap.
#[derive(Clone, Copy, Debug, PartialEq, Eq)]
pub struct Table {
    pub pins: [Option<u8>; 64],
    pub switches: [bool; 64],
    pub weights: [u32; 64],
}
