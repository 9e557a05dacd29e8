//! Open cells by their number of places.
ghost use Rattle.std.specs.Prelude.{◌≡◌, length};
ghost use Rattle.choosers.specs.Choice.{Machine, Naming};
ghost use Rattle.choosers.specs.Kinds.{pick, fewer, Fewer, Chosen};
ghost use Rattle.choosers.specs.KindLaws.{pick_named};

use crate::best::{Preference, best_open};
use crate::chooser::{Chooser, Event, Figure};

/// Names, of the open cells, that with the smallest number of places; of several, the lowest.
#[derive(Clone, Copy, Debug)]
pub struct Fewest;

impl Preference for Fewest {
    ghost better = { fewer };

    fn is_better(a: &Figure, b: &Figure) -> bool {
        a.places < b.places
    }
}

impl Chooser for Fewest {
    ghost meaning = { record { names = λ _ fs. pick fewer fs (length fs); told = λ c _. c } };

    ghost laws = { record { named = λ _ fs. pick_named fewer fs } };

    fn choose(&self, figures: &[Figure]) -> u8
        ensures named { result ≡ pick fewer figures.now (length figures.now) }
        ensures best { Chosen Fewer figures.now result }
    {
        best_open::<Fewest>(figures).unwrap_or(255)
    }

    fn tell(&mut self, _event: Event) {}
}
