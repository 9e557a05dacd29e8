//! The open cell that a preference puts first.
ghost use Rattle.std.specs.Prelude.{◌≡◌, Bool, length};
ghost use Rattle.std.specs.Option.{unwrap_or};
ghost use Rattle.choosers.specs.declared.chooser.Figure.{Figure};
ghost use Rattle.choosers.specs.Kinds.{pick};

use crate::chooser::Figure;

/// What an open cell is chosen for.
pub(crate) trait Preference {
    /// The order of figures, as a test.
    ghost better: { Figure → Figure → Bool };

    /// Whether a cell with the first figure goes before one with the second.
    fn is_better(a: &Figure, b: &Figure) -> bool
        ensures { result ≡ better a.now b.now };
}

/// The lowest open cell that no open one goes before.
pub(crate) fn best_open<P: Preference>(figures: &[Figure]) -> Option<u8>
    ensures { unwrap_or result 255 ≡ pick P.better figures.now (length figures.now) }
{
    let mut best: Option<(u8, Figure)> = None;
    for (cell, figure) in figures.iter().enumerate() {
        if cell < 64
            && figure.is_open()
            && best.is_none_or(|(_, leader)| P::is_better(figure, &leader))
        {
            best = Some((cell as u8, *figure));
        }
    }
    best.map(|(cell, _)| cell)
}
