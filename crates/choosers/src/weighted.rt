//! Open cells by their number of places and their weighted degree.
ghost use Rattle.std.specs.Prelude.{◌≡◌, length};
ghost use Rattle.choosers.specs.Choice.{Machine, Naming};
ghost use Rattle.choosers.specs.Kinds.{pick, lighter, Lighter, Chosen};
ghost use Rattle.choosers.specs.KindLaws.{pick_named};

use crate::best::{Preference, best_open};
use crate::chooser::{Chooser, Event, Figure};

/// Names, of the open cells, that with the smallest number of places divided by weighted degree; of several, the lowest. One of degree 0 goes after all others.
#[derive(Clone, Copy, Debug)]
pub struct Weighted;

impl Preference for Weighted {
    ghost better = { lighter };

    /// Compares the quotients by cross products: these fit 128 bits whatever the figures.
    fn is_better(a: &Figure, b: &Figure) -> bool {
        (a.places as u128) * (b.degree as u128) < (b.places as u128) * (a.degree as u128)
    }
}

// This impl and that of `Fewest` differ in their preference alone. One impl for every preference would overlap that of `LastConflict`,
// and one struct with the preference as a parameter would have no value by the name `Weighted`.
impl Chooser for Weighted {
    ghost meaning = { record { names = λ _ fs. pick lighter fs (length fs); told = λ c _. c } };

    ghost laws = { record { named = λ _ fs. pick_named lighter fs } };

    fn choose(&self, figures: &[Figure]) -> u8
        ensures named { result ≡ pick lighter figures.now (length figures.now) }
        ensures best { Chosen Lighter figures.now result }
    {
        best_open::<Weighted>(figures).unwrap_or(255)
    }

    fn tell(&mut self, _event: Event) {}
}
