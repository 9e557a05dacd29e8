//! Reads lines of a name and a sheet file as hex digits, and prints for each the name and what is known of the text of one run: all of it where the run found a filling, else the lines before the weights.
//! Uses `first_run`, `hex` and `anyhow`.
#![tactic(auto)]

use anyhow::Context;
use first_run::first_run::first_run;
use std::io::{BufRead, BufReader};

/// Prints what is known of a line's sheet.
// A log of a whole Fit has the weights after its last run alone.
fn print_run(rt: &HostRuntime, line: &str) -> anyhow::Result<()> {
    let (name, digits) = line.split_once(' ').context("a name without a sheet")?;
    let file = hex::decode(rt.alloc(), digits)?;
    let text = first_run(rt.alloc(), &file)?;
    println!(rt; "{name}")?;
    let mut clashes = false;
    for told in text.as_str().lines() {
        clashes |= told.starts_with("used");
        if !clashes || !told.starts_with("weights") {
            println!(rt; "{told}")?;
        }
    }
    Ok(())
}

fn run(rt: &HostRuntime) -> anyhow::Result<()> {
    for line in BufReader::new(rt.alloc(), rt.reader())?.lines(rt.alloc()) {
        print_run(rt, line?.as_str())?;
    }
    Ok(())
}

fn main(rt: HostRuntime) -> anyhow::Result<()> {
    run(&rt)
}
