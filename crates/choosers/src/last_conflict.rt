//! A chooser over another one that goes back to the cell that failed.
ghost use Rattle.std.specs.Prelude.{◌≡◌, ℕ, Some, None};
ghost use Rattle.choosers.specs.Choice.{Machine, Naming, Open};
ghost use Rattle.choosers.specs.Kinds.{hold, held_or};
ghost use Rattle.choosers.specs.KindLaws.{held_or_named};

use crate::chooser::{Chooser, Event, Figure};
use crate::open::is_open;

/// Holds the cell that failed until that cell stood or a run begins, and names it while it is open; else it names what the chooser below names.
#[derive(Drop)]
pub struct LastConflict<C> {
    pub below: C,
    pub held: Option<u8>,
}

impl<C> LastConflict<C> {
    /// Over a chooser, with no cell held.
    pub fn new(below: C) -> LastConflict<C>
        ensures { result ≡ record { below = below; held = None } }
    {
        LastConflict { below, held: None }
    }
}

impl<C: Chooser> Chooser for LastConflict<C> {
    ghost meaning = { record {
      names = λ c fs. held_or c.held fs (C.Chooser.meaning.names c.below fs);
      told = λ c e. record { below = C.Chooser.meaning.told c.below e; held = hold c.held e };
    } };

    ghost laws = { record { named = λ c fs. held_or_named c.held fs (C.Chooser.meaning.names c.below fs) (C.Chooser.laws.named c.below fs) } };

    fn choose(&self, figures: &[Figure]) -> u8
        ensures named { result ≡ held_or self.now.held figures.now (C.Chooser.meaning.names self.now.below figures.now) }
        ensures held { (c : ℕ) → self.now.held ≡ Some c → Open figures.now c → result ≡ c }
        ensures below { ((c : ℕ) → self.now.held ≡ Some c → Open figures.now c → ⊥) → result ≡ C.Chooser.meaning.names self.now.below figures.now }
    {
        match self.held {
            Some(cell) if is_open(figures, cell) => cell,
            _ => self.below.choose(figures),
        }
    }

    fn tell(&mut self, event: Event) {
        self.held = match (self.held, event) {
            (_, Event::Start) => None,
            (None, Event::Failed(cell)) => Some(cell),
            (Some(held), Event::Stood(cell)) if held == cell => None,
            (held, _) => held,
        };
        self.below.tell(event);
    }
}
