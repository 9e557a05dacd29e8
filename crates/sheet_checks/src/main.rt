//! Prints the text of a small sheet, and what its books say of each place, as they stand and turned. The sheet is put into the stores by hand.
//! Uses `network`, `formulas`, `rows`, `reader`, `sheets`, `sheet_books`, `listing` and `anyhow`.
#![tactic(auto)]

use formulas::node::{Node, Relation, Shift, Side};
use listing::listing;
use network::book::RuleBook;
use network::turned::Turned;
use reader::formula::Formula;
use rows::rule::{Kind, RowsRule};
use sheet_books::books;
use sheets::stores::{Extent, Stores};
use std::io::Write;

/// Two cells, two rules by rows, of which the second forbids no row, and a rule by a formula.
const FILE: &[u8] =
    b"\x01\x00\x0c\xff\xff\xff\xff\x00\x00\x00\x02\x00\x00\x00\x1e\x01\x00\x08\x00\x00\x00\x04\x00\x00\x00\x05\x02\x00\x08\x00\x02\x00\x01\x00\x01\x02\x01\x02\x00\x03\x01\x01\x01\x03\x00\x1aAND(C0<C1,AND(C0<>2,C1=5))\x04\x00\x00";

/// How much of the stores it takes.
const EXTENT: Extent = Extent {
    cells: 2,
    rules: 2,
    places: 4,
    formulas: 1,
    nodes: 5,
};

fn numbers() -> [i32; 128] {
    let mut numbers = [0; 128];
    numbers[0] = -1;
    numbers[1] = 2;
    numbers[2] = 30;
    numbers[64] = 4;
    numbers[65] = 5;
    numbers
}

fn rules() -> [RowsRule; 2] {
    let permitted = RowsRule {
        kind: Kind::Permitted,
        width: 2,
        cells: [0, 1, 0, 0],
        start: 0,
        count: 2,
    };
    let forbidden = RowsRule {
        kind: Kind::Forbidden,
        width: 1,
        cells: [1, 0, 0, 0],
        start: 4,
        count: 0,
    };
    [permitted, forbidden]
}

fn nodes() -> [Node; 5] {
    let first = Side::Cell(0, Shift::Bare);
    let second = Side::Cell(1, Shift::Bare);
    [
        Node::Compare(first, Relation::Less, second),
        Node::Compare(first, Relation::NotEqual, Side::Number(2)),
        Node::Compare(second, Relation::Equal, Side::Number(5)),
        Node::And(1, 2),
        Node::And(0, 3),
    ]
}

/// For each rule and position of a book, which places have support.
fn print_support<B: RuleBook>(rt: &HostRuntime, book: &B) -> anyhow::Result<()> {
    for rule in 0..book.count() {
        for position in 0..book.width(rule) {
            let cell = book.cell(rule, position);
            print!(rt; "rule {rule} C{cell}:")?;
            for place in 0..4u8 {
                if book.supported(rule, position, place, &[7, 3]) {
                    print!(rt; " {place}")?;
                }
            }
            println!(rt)?;
        }
    }
    Ok(())
}

fn run(rt: &HostRuntime) -> anyhow::Result<()> {
    let stores = Stores {
        lengths: &mut [3, 2],
        numbers: &mut numbers(),
        rules: &mut rules(),
        places: &mut [0, 1, 2, 1],
        formulas: &mut [Formula {
            root: 4,
            width: 2,
            cells: [0, 1, 0, 0],
        }],
        nodes: &mut nodes(),
    };
    let mut out = Vec::new(rt.alloc());
    listing(&mut out, FILE, &stores, EXTENT)?;
    rt.stdout().write_all(&out)?;
    print_support(rt, &books(&stores, EXTENT))?;
    println!(rt; "turned")?;
    print_support(rt, &Turned::new(books(&stores, EXTENT), [true; 64]))
}

fn main(rt: HostRuntime) -> anyhow::Result<()> {
    run(&rt)
}
