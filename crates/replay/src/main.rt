//! Makes the calls of a script on sessions over a sheet file, and prints their answers: `replay SHEET < SCRIPT`. Uses `replaying` and `anyhow`.
#![tactic(auto)]

use anyhow::Context;
use std::io::{Read, Write};
use std::{env, fs};

fn main(rt: HostRuntime) -> anyhow::Result<()> {
    let path = env::args(&rt)?
        .nth(1)
        .context("the path of a sheet file is wanted")?;
    let file = fs::read(&rt, &path)?;
    let mut script = Vec::new(rt.alloc());
    rt.stdin().read_to_end(&mut script)?;
    let out = replaying::replay::replay(rt.alloc(), &file, &script)?;
    rt.stdout().write_all(out.as_bytes())?;
    Ok(())
}
