//! The interface of a cell chooser.
ghost use Rattle.std.specs.Prelude.{◌≡◌, nat_lt};
ghost use Rattle.choosers.specs.Choice.{Machine, Naming};

/// What a chooser is told: a run begins, or what became of a tried cell.
#[derive(Clone, Copy, Debug, PartialEq, Eq)]
pub enum Event {
    Start,
    Failed(u8),
    Stood(u8),
}

/// What a chooser is given of a cell: how many of its places remain, and its weighted degree.
#[derive(Clone, Copy, Debug, Default, PartialEq, Eq)]
pub struct Figure {
    pub places: u8,
    pub degree: u64,
}

impl Figure {
    /// Whether two or more places remain.
    pub fn is_open(self) -> bool
        ensures { result ≡ nat_lt 1 self.places }
    {
        self.places > 1
    }
}

/// A way to choose the next cell to try.
pub trait Chooser: Sized {
    /// The cell that it names in each state at any figures, and its state after each event.
    ghost meaning: { Machine Self };

    /// The cell that it names is open; where none is, it names 255.
    ghost laws: { Naming meaning };

    /// The open cell that it names, and 255 where no cell is open.
    // A number and no `Option`: this one is promised to hosts.
    fn choose(&self, figures: &[Figure]) -> u8
        ensures { result ≡ meaning.names self.now figures.now };

    /// Hears what happened.
    fn tell(&mut self, event: Event)
        ensures { self.new ≡ meaning.told self.old event };
}
