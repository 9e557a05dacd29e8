//! The rows book through two layers of other books.
use crate::book::RowsBook;
use crate::rule::{Kind, RowsRule};
use network::book::RuleBook;
use network::joined::Joined;
use network::turned::Turned;

fn rule(kind: Kind) -> RowsRule {
    RowsRule {
        kind,
        width: 2,
        cells: [0, 1, 0, 0],
        start: 0,
        count: 2,
    }
}

#[test]
fn turned_over_joined_over_rows(rt: HostRuntime) {
    let rows = [0, 1, 1, 2];
    let permitted = [rule(Kind::Permitted)];
    let forbidden = [rule(Kind::Forbidden)];
    let mut flags = [false; 64];
    flags[1] = true;
    let book = Turned::new(
        Joined::new(
            RowsBook::new(&permitted, &rows),
            RowsBook::new(&forbidden, &rows),
        ),
        flags,
    );
    assert_eq!(rt; book.count(), 2);
    assert_eq!(rt; book.cell(0, 0), 0);
    assert_eq!(rt; book.cell(1, 0), 1);
    assert!(rt; book.supported(0, 0, 1, &[2, 4]));
    assert!(rt; !book.supported(0, 0, 1, &[2, 2]));
    assert!(rt; !book.supported(1, 0, 2, &[2, 4]));
    assert!(rt; book.supported(1, 0, 2, &[1, 4]));
}
