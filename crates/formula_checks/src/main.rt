//! Reads lines of a number of cells and a formula, and prints for each `read` or the formula's first fault, its number and its offset.
//! Uses `formulas`, `reader` and `anyhow`.
#![tactic(auto)]

use anyhow::anyhow;
use formulas::node::Node;
use reader::formula::{NODES, read};

/// Tries one formula.
fn attempt(rt: &HostRuntime, nodes: &mut [Node], cells: u8, formula: &[u8]) -> anyhow::Result<()> {
    let mut used = 0;
    match read(formula, cells, nodes, &mut used) {
        Ok(_) => println!(rt; "read")?,
        Err(unread) => {
            let n = unread.number();
            let offset = unread.offset();
            println!(rt; "{n} {offset}")?
        }
    }
    Ok(())
}

fn run(rt: &HostRuntime) -> anyhow::Result<()> {
    let mut nodes = vec![in rt.alloc(); Node::Free; NODES]?;
    for line in rt.lines(rt.alloc()) {
        let line = line?;
        let Some((cells, formula)) = line.as_str().split_once(' ') else {
            return Err(anyhow!("no formula"));
        };
        attempt(rt, &mut nodes, cells.parse::<u8>()?, formula.as_bytes())?;
    }
    Ok(())
}

fn main(rt: HostRuntime) -> anyhow::Result<()> {
    run(&rt)
}
