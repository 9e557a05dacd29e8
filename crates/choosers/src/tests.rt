//! Last conflict over weighted.
use crate::chooser::{Chooser, Event, Figure};
use crate::last_conflict::LastConflict;
use crate::weighted::Weighted;

#[test]
fn last_conflict_over_weighted(rt: HostRuntime) {
    let figures = [
        Figure {
            places: 3,
            degree: 0,
        },
        Figure {
            places: 4,
            degree: 2,
        },
        Figure {
            places: 2,
            degree: 1,
        },
        Figure {
            places: 1,
            degree: 9,
        },
    ];
    let mut chooser = LastConflict::new(Weighted);
    assert_eq!(rt; chooser.choose(&figures), 1);
    chooser.tell(Event::Failed(2));
    assert_eq!(rt; chooser.choose(&figures), 2);
    chooser.tell(Event::Stood(2));
    assert_eq!(rt; chooser.choose(&figures), 1);
}
