//! Replays many sessions with known answers, and prints the name of each and its answers. Uses `replaying`, `hex` and `anyhow`.
//!
//! A session begins with a line `session NAME SHEET`, the sheet file as hex digits, and the lines up to the next one are its script.
#![tactic(auto)]

use anyhow::Context;
use std::alloc::Global;
use std::io::{BufRead, BufReader, Write};

/// A session that is being read.
#[derive(Drop)]
struct Session {
    name: String,
    sheet: Vec<u8>,
    script: String,
}

impl Session {
    /// A session of this name over the sheet file that the digits stand for, without calls so far.
    fn begin(heap: Global, head: &str) -> anyhow::Result<Session> {
        let (name, digits) = head.split_once(' ').context("a session without a sheet")?;
        Ok(Session {
            name: String::from_str(heap, name)?,
            sheet: hex::decode(heap, digits)?,
            script: String::new(heap),
        })
    }

    /// One more line of the script.
    fn add(&mut self, line: &str) -> anyhow::Result<()> {
        self.script.push_str(line)?;
        self.script.push_str("\n")?;
        Ok(())
    }

    /// Prints its name and its answers.
    fn print(&self, rt: &HostRuntime) -> anyhow::Result<()> {
        let answers = replaying::replay::replay(rt.alloc(), &self.sheet, self.script.as_bytes())?;
        println!(rt; "session {}", self.name)?;
        rt.stdout().write_all(answers.as_bytes())?;
        Ok(())
    }
}

fn run(rt: &HostRuntime) -> anyhow::Result<()> {
    let mut session: Option<Session> = None;
    for line in BufReader::new(rt.alloc(), rt.reader())?.lines(rt.alloc()) {
        let line = line?;
        if let Some(head) = line.as_str().strip_prefix("session ") {
            if let Some(done) = &session {
                done.print(rt)?;
            }
            session = Some(Session::begin(rt.alloc(), head)?);
        } else {
            session
                .as_mut()
                .context("a line before the first session")?
                .add(line.as_str())?;
        }
    }
    if let Some(done) = &session {
        done.print(rt)?;
    }
    Ok(())
}

fn main(rt: HostRuntime) -> anyhow::Result<()> {
    run(&rt)
}
