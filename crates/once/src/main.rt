//! Reads a sheet file from standard input, makes one run of all its rules, and prints the run's line, what it found, and the weights; or the first fault.
//! Uses `first_run`.
#![tactic(auto)]

use first_run::first_run::first_run;
use std::io;
use std::io::{Read, Write};

fn main(rt: HostRuntime) -> io::Result<()> {
    let mut file = Vec::new(rt.alloc());
    rt.stdin().read_to_end(&mut file)?;
    let text = first_run(rt.alloc(), &file)?;
    rt.stdout().write_all(text.as_bytes())
}
