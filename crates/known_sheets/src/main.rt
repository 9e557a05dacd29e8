//! Reads lines of a name and a sheet file as hex digits, and prints for each the name, the text of a Fit on the sheet, and where one is made its log and the weights after it.
//! Uses `network`, `choosers`, `calls`, `play`, `sheets`, `storage`, `load`, `sheet_books`, `text`, `answers`, `run_lines`, `hex` and `anyhow`.
#![tactic(auto)]

use answers::answer::answer;
use answers::fit::fit_step;
use anyhow::Context;
use calls::answer::Answer;
use choosers::last_conflict::LastConflict;
use choosers::weighted::Weighted;
use load::load::load;
use network::book::RuleBook;
use play::play;
use run_lines::{push_log_line, push_numbers};
use sheet_books::{books, lengths};
use sheets::stores::{Extent, Stores};
use std::alloc::{AllocError, Global};
use std::io::{BufRead, BufReader, Write};
use storage::Storage;
use text::part;

/// The log of a Fit on the sheet in the stores, and the weights after it; nothing where no session can be opened.
fn log_text(heap: Global, stores: &Stores<'_>, extent: Extent) -> Result<String, AllocError> {
    let mut out = String::new(heap);
    let mut steps = [fit_step(heap)?];
    let book = books(stores, extent);
    let rules = usize::from(book.count());
    let chooser = LastConflict::new(Weighted);
    let session = play(lengths(stores, extent), book, chooser, &mut steps);
    if let Answer::Fitted(fitted) = steps[0].answer {
        for line in part(&steps[0].buffers.log, 0, fitted.lines) {
            push_log_line(&mut out, line)?;
        }
        push_numbers(&mut out, "weights", part(session.weights(), 0, rules))?;
    }
    Ok(out)
}

/// Prints the log and the weights for a file that is a sheet's.
fn print_log(rt: &HostRuntime, file: &[u8]) -> anyhow::Result<()> {
    let mut storage = Storage::new(rt.alloc())?;
    let mut stores = storage.lend();
    if let Ok(extent) = load(file, &mut stores) {
        let text = log_text(rt.alloc(), &stores, extent)?;
        rt.stdout().write_all(text.as_bytes())?;
    }
    Ok(())
}

/// Prints what a line's sheet comes to.
fn print_sheet(rt: &HostRuntime, line: &str) -> anyhow::Result<()> {
    let (name, digits) = line.split_once(' ').context("a name without a sheet")?;
    let file = hex::decode(rt.alloc(), digits)?;
    let text = answer(rt.alloc(), &file)?;
    println!(rt; "{name}")?;
    rt.stdout().write_all(text.as_bytes())?;
    print_log(rt, &file)
}

fn run(rt: &HostRuntime) -> anyhow::Result<()> {
    for line in BufReader::new(rt.alloc(), rt.reader())?.lines(rt.alloc()) {
        print_sheet(rt, line?.as_str())?;
    }
    Ok(())
}

fn main(rt: HostRuntime) -> anyhow::Result<()> {
    run(&rt)
}
