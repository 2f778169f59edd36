#![tactic(auto)]

mod bits;
mod counted;

use anyhow::anyhow;
use bits::measure_bits;
use filter::{ExactSet, Filter, ListingFilter, Places};
use std::env;
use std::time::Instant;

const ROUNDS: u32 = 20;

// A fixed row of fingerprints, from one of them on.
#[derive(Clone, Copy)]
struct Row(u64);

impl Iterator for Row {
    type Item = u64;

    fn next(&mut self) -> Option<u64> {
        let f = self.0;
        let y = f
            .wrapping_mul(6364136223846793005)
            .wrapping_add(1442695040888963407);
        self.0 = y ^ (y >> 29);
        Some(f)
    }
}

// Records so many fingerprints of a row, and answers the rest of it.
fn record_all<F: Filter>(filter: &mut F, mut row: Row, count: u32) -> Row {
    for f in row.by_ref().take(count as usize) {
        let _ = filter.record(f);
    }
    row
}

// How many of so many fingerprints of a row are held. A loop: by `filter` and `count` a lookup of one held among 1,000 takes
// 3.4 ns, not 2.4.
fn count_held(set: &ExactSet, row: Row, count: u32) -> u64 {
    let mut held: u64 = 0;
    for f in row.take(count as usize) {
        if set.holds(f) {
            held = held.wrapping_add(1);
        }
    }
    held
}

// Nanoseconds for each of so many, times 100.
fn each(nanos: u128, count: u32) -> u128 {
    nanos.saturating_mul(100) / count.max(1) as u128
}

// The costs of one round, in nanoseconds: the last tenth of the records, lookups of held fingerprints, and of others.
#[derive(Clone, Copy)]
struct Costs {
    record: u128,
    hit: u128,
    miss: u128,
}

impl Costs {
    // The least that each took in two rounds.
    fn least(self, other: Costs) -> Costs {
        Costs {
            record: self.record.min(other.record),
            hit: self.hit.min(other.hit),
            miss: self.miss.min(other.miss),
        }
    }
}

// Fills an emptied set to `held`, and measures. The clock is read in line: with each step a closure for one function that
// times it, a record at 1,000 takes 3.5 ns, not 3.0.
fn round(rt: &HostRuntime, set: &mut ExactSet, held: u32) -> anyhow::Result<Costs> {
    set.empty();
    let tenth = held / 10;
    let last = record_all(set, Row(1), held - tenth);
    let start = Instant::now(rt)?;
    let past = record_all(set, last, tenth);
    let record = start.elapsed(rt)?.as_nanos();
    let start = Instant::now(rt)?;
    let found = count_held(set, Row(1), held);
    let hit = start.elapsed(rt)?.as_nanos();
    let start = Instant::now(rt)?;
    let missed = count_held(set, past, held);
    let miss = start.elapsed(rt)?.as_nanos();
    if found != held as u64 || missed != 0 {
        return Err(anyhow!("a fingerprint was lost or made up"));
    }
    Ok(Costs { record, hit, miss })
}

// Prints the least costs of some rounds.
fn measure(rt: &HostRuntime, held: u32) -> anyhow::Result<()> {
    let Ok(mut set) = ExactSet::new(held, Places::allocate(rt.alloc(), held)?) else {
        return Err(anyhow!("no set"));
    };
    let mut least = round(rt, &mut set, held)?;
    for _ in 0..ROUNDS {
        least = least.least(round(rt, &mut set, held)?);
    }
    let record = each(least.record, held / 10);
    let hit = each(least.hit, held);
    let miss = each(least.miss, held);
    println!(rt; "{held} record {record} hit {hit} miss {miss}")?;
    Ok(())
}

fn run(rt: &HostRuntime) -> anyhow::Result<()> {
    match env::args(rt)?.nth(1).as_deref() {
        None => {
            println!(rt; "filter_bench run: hundredths of a nanosecond for a record and a lookup")?;
            println!(rt; "filter_bench bits: the same of Bloom filters, and how often they store")?;
            Ok(())
        }
        Some("bits") => measure_bits(rt),
        Some(_) => {
            measure(rt, 1_000)?;
            measure(rt, 30_000)?;
            measure(rt, 458_752)
        }
    }
}

fn main(rt: HostRuntime) -> anyhow::Result<()> {
    run(&rt)
}
