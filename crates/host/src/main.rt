//! A host, as an example: reads a sheet file into stores, makes a session over the sheet, pins C0 to place 2, and asks for a Fit.
//! Uses `bits`, `choosers`, `clash`, `runs`, `session`, `sheets`, `load`, `storage` and `sheet_books`.
#![tactic(auto)]

use bits::has;
use choosers::last_conflict::LastConflict;
use choosers::weighted::Weighted;
use clash::fitted::Fitted;
use load::load::load;
use runs::line::{Line, Verdict};
use session::session::Session;
use sheet_books::{books, lengths};
use sheets::stores::{Extent, Stores};
use std::alloc::Global;
use std::io;
use std::io::Read;
use storage::Storage;

/// Prints what a Fit came to.
fn tell(rt: &impl Print, fitted: Fitted, filling: &[u8]) -> io::Result<()> {
    match fitted.core {
        None => for (cell, place) in filling.iter().enumerate() {
            println!(rt; "C{cell} has place {place}")?;
        },
        Some(core) => for rule in 0..64 {
            if has(core, rule) {
                println!(rt; "rule {rule} is in the core")?;
            }
        },
    }
    Ok(())
}

/// Makes a session over the sheet in the stores, which stay lent to it; pins C0, and asks for a Fit.
fn pin_and_fit(
    rt: &impl Print,
    heap: Global,
    stores: &Stores<'_>,
    extent: Extent,
) -> io::Result<()> {
    let lists = lengths(stores, extent);
    let book = books(stores, extent);
    let mut session = Session::new(lists, book, LastConflict::new(Weighted));
    if let Err(refusal) = session.pin(0, 2) {
        return println!(rt; "pin refused {}", refusal.number());
    }

    // The buffers of a Fit are lent for that call alone.
    let line = Line {
        listed: 0,
        used: 0,
        verdict: Verdict::Met,
    };
    let mut work = vec![in heap; 0u64; 4096]?;
    let mut log = vec![in heap; line; 450]?;
    let mut filling = [0u8; 64];
    match session.fit(&mut work, &mut log, &mut filling) {
        Ok(fitted) => tell(rt, fitted, &filling[..lists.len().min(64)]),
        Err(refusal) => println!(rt; "fit refused {}", refusal.number()),
    }
}

fn main(rt: HostRuntime) -> io::Result<()> {
    let mut file = Vec::new(rt.alloc());
    rt.stdin().read_to_end(&mut file)?;

    let mut storage = Storage::new(rt.alloc())?;
    let mut stores = storage.lend();
    match load(&file, &mut stores) {
        Ok(extent) => pin_and_fit(&rt, rt.alloc(), &stores, extent),
        Err(fault) => println!(rt; "fault {} at {}", fault.number(), fault.offset()),
    }
}
