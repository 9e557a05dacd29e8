//! A search for a core that is under way.
ghost use Rattle.readiness.specs.Room.{Room};

use crate::runner::Runner;
use runs::line::Line;

/// A search for a core that is under way: what runs, the buffers that were lent, and the log with the number of lines in it.
// The host lends the log, so it is a slice with a count of its lines. That the loans are kept (`Keeps`) is a clause of each method,
// since it compares them before and after.
#[derive(Drop)]
pub(crate) struct CoreSearch<'r, 'a, T: Runner<C>, C> {
    pub(crate) runner: &'r T,
    pub(crate) chooser: &'a mut C,
    pub(crate) weights: &'a mut [u32],
    pub(crate) work: &'a mut [u64],
    pub(crate) sets: &'a mut [u64],
    pub(crate) log: &'a mut [Line],
    pub(crate) lines: usize,
    ghost room: { Room (T.Runner.cells runner.now) weights.now work.now sets.now },
}
