//! Whether the buffers of a run are long enough.
ghost use Rattle.std.specs.Prelude.{Decides};
ghost use Rattle.readiness.specs.Room.{Room};

/// Whether there is a weight for each of 64 rules, room to work in, and a set for each cell.
pub fn is_roomy(cells: usize, weights: &[u32], work: &[u64], sets: &[u64]) -> bool
    ensures { Decides result (Room cells weights.now work.now sets.now) }
{
    weights.len() >= 64 && work.len() >= 4096 && sets.len() == cells
}
