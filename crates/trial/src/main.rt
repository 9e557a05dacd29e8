//! Makes many small sheets, always the same, plays calls on them, and holds every answer to a solver that tries all fillings.
//! Uses `network`, `choosers`, `runs`, `clash`, `calls`, `play`, `storage`, `load`, `sheet_books` and `anyhow`; of a run's own code it uses nothing.
#![tactic(auto)]

use crate::model::{Counts, Model};
use crate::numbers::Numbers;
use crate::sheet::Sheet;
use anyhow::anyhow;
use calls::answer::Answer;
use calls::call::Call;
use calls::step::{Buffers, Step};
use choosers::last_conflict::LastConflict;
use choosers::weighted::Weighted;
use load::load::load;
use network::turned::Turned;
use play::play;
use runs::line::{Line, Verdict};
use sheet_books::{books, lengths};
use std::alloc::{AllocError, Global};
use storage::Storage;

mod formula;
mod model;
mod numbers;
mod sheet;
mod solver;

/// How many sheets are made.
const SHEETS: u32 = 3000;

/// How many calls are made on each.
const CALLS: u8 = 12;

/// Some call, also one that is refused.
fn any_call(numbers: &mut Numbers, sheet: &Sheet) -> Call {
    match numbers.below(8) {
        0 | 1 => Call::Pin {
            cell: numbers.below(5),
            place: numbers.below(5),
        },
        2 => Call::Free {
            cell: numbers.below(5),
        },
        3 | 4 => Call::Switch {
            rule: u16::from(numbers.below(sheet.rules().saturating_add(1))),
            on: numbers.coin(),
        },
        _ => Call::Fit,
    }
}

/// The buffers of a call: those that a Fit wants, none for another.
fn buffers(heap: Global, call: Call) -> Result<Buffers, AllocError> {
    let line = Line {
        listed: 0,
        used: 0,
        verdict: Verdict::Met,
    };
    let fits = call == Call::Fit;
    let work = vec![in heap; 0u64; if fits { 4096 } else { 0 }]?;
    let log = vec![in heap; line; if fits { 450 } else { 0 }]?;
    let filling = vec![in heap; 0u8; if fits { 64 } else { 0 }]?;
    Ok(Buffers { work, log, filling })
}

/// The calls on a sheet.
fn any_steps(heap: Global, numbers: &mut Numbers, sheet: &Sheet) -> Result<Vec<Step>, AllocError> {
    let mut steps = Vec::new(heap);
    for _ in 0..CALLS {
        let call = any_call(numbers, sheet);
        steps.push(Step {
            call,
            buffers: buffers(heap, call)?,
            answer: Answer::Done,
        })?;
    }
    Ok(steps)
}

/// Which rules are turned.
fn any_flags(numbers: &mut Numbers) -> [bool; 64] {
    let mut flags = [false; 64];
    for rule in 0..6 {
        flags[rule] = numbers.coin();
    }
    flags
}

/// Makes a sheet, plays calls on it, and checks the answers.
fn try_sheet(
    heap: Global,
    storage: &mut Storage,
    numbers: &mut Numbers,
    counts: &mut Counts,
) -> anyhow::Result<()> {
    let sheet = Sheet::any(heap, numbers)?;
    let file = sheet.file(heap)?;
    let mut stores = storage.lend();
    let Ok(extent) = load(&file, &mut stores) else {
        return Err(anyhow!("a sheet was not read"));
    };
    let flags = any_flags(numbers);
    let mut steps = any_steps(heap, numbers, &sheet)?;
    let book = Turned::new(books(&stores, extent), flags);
    let chooser = LastConflict::new(Weighted);
    let _ = play(lengths(&stores, extent), book, chooser, &mut steps);
    let mut model = Model::new(&sheet);
    for step in steps.iter() {
        model.check(step, counts);
    }
    Ok(())
}

fn run(rt: &HostRuntime) -> anyhow::Result<()> {
    let mut storage = Storage::new(rt.alloc())?;
    let mut numbers = Numbers::new();
    let mut counts = Counts::default();
    for _ in 0..SHEETS {
        try_sheet(rt.alloc(), &mut storage, &mut numbers, &mut counts)?;
    }
    println!(rt; "{SHEETS} sheets")?;
    println!(rt; "{} calls, {} refused", counts.calls, counts.refused)?;
    println!(rt; "{} fillings, {} cores", counts.fillings, counts.cores)?;
    println!(rt; "{} lines", counts.lines)?;
    println!(rt; "{} wrong", counts.wrong)?;
    Ok(())
}

fn main(rt: HostRuntime) -> anyhow::Result<()> {
    run(&rt)
}
