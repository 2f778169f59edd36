#![tactic(auto)]

ghost use Rattle.std.specs.Prelude.{◌<◌, ◌≤◌};

use answers::Refusal;
use anyhow::anyhow;
use record_pool::Record;
use std::alloc::{AllocError, Global};
use std::env;
use std::time::Instant;
use token_memory_cache::{NameEntry, Text, TokenMemoryCache};
use token_store::{MAX_STORED_LEN, TokenStore};

const ROUNDS: u32 = 10;

const CALLS: u32 = 10_000;

const TOKEN: usize = 81;

// The costs of one round, in nanoseconds: inserts and takes of names that are there, and inserts of new names.
#[derive(Clone, Copy)]
struct Costs {
    insert: u128,
    take: u128,
    new: u128,
}

impl Costs {
    // The least that each took in two rounds.
    fn least(self, other: Costs) -> Costs {
        Costs {
            insert: self.insert.min(other.insert),
            take: self.take.min(other.take),
            new: self.new.min(other.new),
        }
    }
}

// An answer that is no refusal.
fn unrefused<T: Drop>(answer: Result<T, Refusal>) -> anyhow::Result<T> {
    answer.map_err(|refusal| anyhow!("refused by {}", refusal.number()))
}

// A name of a unit.
fn name(heap: Global, unit: u32) -> Result<String, AllocError> {
    let mut name = String::new(heap);
    name.push_str("unit-")?;
    let mut left = unit;
    for _ in 0..5 {
        name.push((b'0' + (left % 10) as u8) as char)?;
        left /= 10;
    }
    name.push_str(".harbour.example")?;
    Ok(name)
}

// The name that a call is about: one of the first so many.
fn unit(units: &[String], call: u32, names: u32) -> anyhow::Result<&str> {
    let at = call.wrapping_mul(2654435761) >> 12;
    let unit = units.get((at % names.max(1)) as usize);
    Ok(unit.ok_or(anyhow!("no such unit"))?.as_str())
}

// A token that no other call has.
fn token(call: u32) -> [u8; TOKEN] {
    let mut token = [7; TOKEN];
    token[..4].copy_from_slice(&call.to_le_bytes());
    token
}

fn round(
    rt: &HostRuntime,
    cache: &mut TokenMemoryCache<'_>,
    units: &[String],
    names: u32,
) -> anyhow::Result<Costs>
    requires { (0 < names) × (names ≤ 1024) }
{
    let mut out = [0; MAX_STORED_LEN];
    for call in 0..names {
        unrefused(cache.insert(unit(units, call, names)?, &token(call)))?;
    }
    let start = Instant::now(rt)?;
    for call in 0..CALLS {
        unrefused(cache.insert(unit(units, call, names)?, &token(call)))?;
    }
    let insert = start.elapsed(rt)?.as_nanos();
    let start = Instant::now(rt)?;
    for call in 0..names {
        unrefused(cache.take(unit(units, call, names)?, &mut out))?;
    }
    let take = start.elapsed(rt)?.as_nanos();
    let start = Instant::now(rt)?;
    for call in 0..CALLS {
        unrefused(cache.insert(unit(units, call, 4 * names)?, &token(call)))?;
    }
    let new = start.elapsed(rt)?.as_nanos();
    Ok(Costs { insert, take, new })
}

fn measure(rt: &HostRuntime, names: u32) -> anyhow::Result<()>
    requires { (0 < names) × (names ≤ 1024) }
{
    let heap = rt.alloc();
    let mut units: Vec<String> = Vec::new(heap);
    for unit in 0..4 * names {
        units.push(name(heap, unit)?)?;
    }
    let mut name_memory = vec![in heap; Record::new(NameEntry::new()); names as usize]?;
    let mut token_memory = vec![in heap; Record::new(Text::new()); 2 * names as usize]?;
    let Ok(mut cache) = TokenMemoryCache::new(names, 2, &mut name_memory, &mut token_memory) else {
        return Err(anyhow!("refused"));
    };
    let mut least = round(rt, &mut cache, &units, names)?;
    for _ in 0..ROUNDS {
        least = least.least(round(rt, &mut cache, &units, names)?);
    }
    println!(rt;
        "{names} insert {} take {} new {}",
        least.insert / CALLS as u128,
        least.take / names as u128,
        least.new / CALLS as u128
    )?;
    Ok(())
}

fn run(rt: &HostRuntime) -> anyhow::Result<()> {
    if env::args(rt)?.count() < 2 {
        println!(rt; "cache_bench run: nanoseconds for an insert and a take")?;
        return Ok(());
    }
    measure(rt, 16)?;
    measure(rt, 256)?;
    measure(rt, 1024)
}

fn main(rt: HostRuntime) -> anyhow::Result<()> {
    run(&rt)
}
