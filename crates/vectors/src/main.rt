#![tactic(auto)]
// Runs vectors from standard input, a line each, and prints for each group how many hold.
mod ccm_vector;
mod checks;
mod words;

use checks::{Group, check};
use std::alloc::Global;
use std::collections::BTreeMap;
use std::io::{BufRead, BufReader};

// How many vectors of a group were run, and how many of them hold.
#[derive(Clone, Copy, Default)]
struct Tally {
    run: u32,
    hold: u32,
}

// Runs one line; a line that begins with `#` is a comment.
fn run_line(
    rt: &impl Print,
    heap: Global,
    number: u64,
    line: &str,
    tallies: &mut BTreeMap<Group, Tally>,
) -> anyhow::Result<()> {
    if line.is_empty() || line.starts_with('#') {
        return Ok(());
    }
    let (group, holds) = check(heap, line)?;
    let tally = tallies.entry(group)?.or_default();
    tally.run = tally.run.saturating_add(1);
    if holds {
        tally.hold = tally.hold.saturating_add(1);
    } else {
        println!(rt; "line {number} does not hold")?;
    }
    Ok(())
}

fn run(rt: &HostRuntime) -> anyhow::Result<()> {
    let heap = rt.alloc();
    let mut tallies = BTreeMap::new(heap);
    for group in Group::ALL {
        tallies.insert(group, Tally::default())?;
    }
    for (number, line) in (1..).zip(BufReader::new(heap, rt.stdin())?.lines(heap)) {
        run_line(rt, heap, number, line?.as_str(), &mut tallies)?;
    }
    for (group, tally) in &tallies {
        println!(rt; "{group}: {} of {} hold", tally.hold, tally.run)?;
    }
    Ok(())
}

fn main(rt: HostRuntime) -> anyhow::Result<()> {
    run(&rt)
}
