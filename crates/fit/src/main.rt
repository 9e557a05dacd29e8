//! Reads a sheet file from standard input, and prints a filling of the sheet or the rules that clash, or the first fault. Uses `answers`.
#![tactic(auto)]

use answers::answer::answer;
use std::io;
use std::io::{Read, Write};

fn main(rt: HostRuntime) -> io::Result<()> {
    let mut file = Vec::new(rt.alloc());
    rt.stdin().read_to_end(&mut file)?;
    let text = answer(rt.alloc(), &file)?;
    rt.stdout().write_all(text.as_bytes())
}
