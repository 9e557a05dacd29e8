//! Reads a sheet file from standard input, and prints the sheet in a readable form, or the first fault. Uses `shown`.
#![tactic(auto)]

use shown::shown;
use std::io;
use std::io::{Read, Write};

fn main(rt: HostRuntime) -> io::Result<()> {
    let mut file = Vec::new(rt.alloc());
    rt.stdin().read_to_end(&mut file)?;
    let text = shown(rt.alloc(), &file)?;
    rt.stdout().write_all(&text)
}
