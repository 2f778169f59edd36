//! A host in small: a crane's unit over CCM and a log from a budget, and a cab with a store of its own. One line is printed for
//! each thing that happens.
#![tactic(auto)]

mod cab;
mod unit;

use anyhow::{Context, anyhow};
use cab::Cab;
use record_pool::Record;
use token_memory_cache::{NameEntry, Text, TokenMemoryCache};
use token_store::TokenStore;
use unit::{SECOND, Unit};

/// When the story begins, in nanoseconds since 1970, and how long a validation token is good.
const START: u64 = 1_700_000_000 * SECOND;

const TWO_WEEKS: u64 = 14 * 24 * HOUR;

const HOUR: u64 = 3_600 * SECOND;

/// The port of the cab before and after it changed its zone.
const PORT: u16 = 4433;

const NEW_PORT: u16 = 50_123;

/// First contact: a retry proves the cab's address, and it is given a token.
fn first_contact<T: TokenStore>(
    rt: &HostRuntime,
    unit: &mut Unit,
    cab: &mut Cab<T>,
) -> anyhow::Result<()> {
    println!(rt; "The cab comes to the unit for the first time, from port {PORT}.")?;
    let retry = unit.turn_back(rt, PORT, START)?.context("no retry")?;
    unit.meet(rt, retry.as_slice(), PORT, START + SECOND)?;
    let token = unit.give(rt, START + SECOND)?.context("no token")?;
    cab.keep(rt, token.as_slice())
}

/// The cab comes back from another zone, and somebody repeats what it sent.
fn zone_change<T: TokenStore>(
    rt: &HostRuntime,
    unit: &mut Unit,
    cab: &mut Cab<T>,
) -> anyhow::Result<()> {
    println!(rt; "The cab changes its zone and comes back from port {NEW_PORT}.")?;
    let token = cab.bring(rt)?.context("no token")?;
    unit.meet(rt, token.as_slice(), NEW_PORT, START + 600 * SECOND)?;
    println!(rt; "Somebody sends the same token again.")?;
    unit.meet(rt, token.as_slice(), NEW_PORT, START + 601 * SECOND)
}

/// More tokens than the log's set is sure of: it goes over to its Bloom filter, and still knows each. Answers the last one.
fn going_over<T: TokenStore>(
    rt: &HostRuntime,
    unit: &mut Unit,
    cab: &mut Cab<T>,
) -> anyhow::Result<Vec<u8>> {
    println!(rt; "Five more rides on one day; the log's set is sure of three tokens.")?;
    let mut last = Vec::new(rt.alloc());
    for ride in 1u64..6 {
        let now = START + ride * HOUR;
        let token = unit.give(rt, now)?.context("no token")?;
        cab.keep(rt, token.as_slice())?;
        last = cab.bring(rt)?.context("no token")?;
        unit.meet(rt, last.as_slice(), NEW_PORT, now + SECOND)?;
        unit.meet(rt, last.as_slice(), NEW_PORT, now + 2 * SECOND)?;
    }
    Ok(last)
}

/// The log's next period: it still knows a token of the one before, as long as that is in date.
fn next_period(rt: &HostRuntime, unit: &mut Unit, used: &[u8]) -> anyhow::Result<()> {
    println!(rt; "Two weeks pass, and a period of the log with them.")?;
    let now = START + TWO_WEEKS + HOUR;
    let token = unit.give(rt, now)?.context("no token")?;
    unit.meet(rt, token.as_slice(), NEW_PORT, now + SECOND)?;
    println!(rt; "Somebody sends a token of the last ride again, now and half a day later.")?;
    unit.meet(rt, used, NEW_PORT, now + 2 * SECOND)?;
    unit.meet(rt, used, NEW_PORT, now + 12 * HOUR)
}

fn main(rt: HostRuntime) -> anyhow::Result<()> {
    let alloc = rt.alloc();
    let mut unit = Unit::new(alloc, TWO_WEEKS)?;
    let mut names = vec![in alloc; Record::new(NameEntry::new()); 4]?;
    let mut tokens = vec![in alloc; Record::new(Text::new()); 8]?;
    let Ok(cache) = TokenMemoryCache::new(4, 2, &mut names, &mut tokens) else {
        return Err(anyhow!("no cache of that size"));
    };
    let mut cab = Cab::new(alloc, cache);
    first_contact(&rt, &mut unit, &mut cab)?;
    zone_change(&rt, &mut unit, &mut cab)?;
    let used = going_over(&rt, &mut unit, &mut cab)?;
    next_period(&rt, &mut unit, used.as_slice())
}
