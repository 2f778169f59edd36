use crate::counted::Counted;
use crate::{ROUNDS, Row, each, record_all};
use anyhow::anyhow;
use bloom::{BloomFilter, allocate_words, bloom_words};
use filter::Filter;
use std::time::Instant;

// The costs of one round, in nanoseconds: the first and the last tenth of the records, and records of what is held.
#[derive(Clone, Copy)]
struct Costs {
    first: u128,
    last: u128,
    held: u128,
}

impl Costs {
    // The least that each took in two rounds.
    fn least(self, other: Costs) -> Costs {
        Costs {
            first: self.first.min(other.first),
            last: self.last.min(other.last),
            held: self.held.min(other.held),
        }
    }
}

// Fills an emptied filter with so many fingerprints, and measures.
fn round<F: Filter>(rt: &HostRuntime, filter: &mut F, hits: u32) -> anyhow::Result<Costs> {
    filter.empty();
    let tenth = hits / 10;
    let start = Instant::now(rt)?;
    let past = record_all(filter, Row(1), tenth);
    let first = start.elapsed(rt)?.as_nanos();
    let past = record_all(
        filter,
        past,
        hits.saturating_sub(tenth).saturating_sub(tenth),
    );
    let start = Instant::now(rt)?;
    let _ = record_all(filter, past, tenth);
    let last = start.elapsed(rt)?.as_nanos();
    let start = Instant::now(rt)?;
    let _ = record_all(filter, Row(1), tenth);
    let held = start.elapsed(rt)?.as_nanos();
    Ok(Costs { first, last, held })
}

// Prints the least costs of some rounds.
fn measure(rt: &HostRuntime, budget: u32, k: u32, hits: u32) -> anyhow::Result<()> {
    let Ok(mut filter) = BloomFilter::new(budget, k, allocate_words(rt.alloc(), budget)?) else {
        return Err(anyhow!("no Bloom filter"));
    };
    let mut least = round(rt, &mut filter, hits)?;
    for _ in 0..ROUNDS {
        least = least.least(round(rt, &mut filter, hits)?);
    }
    let first = each(least.first, hits / 10);
    let last = each(least.last, hits / 10);
    let held = each(least.held, hits / 10);
    println!(rt; "bloom {budget} {k} {hits} first {first} last {last} held {held}")?;
    Ok(())
}

// Prints how many stores the records of so many fingerprints make, for each a hundred times, and then how many an emptying makes.
fn count_stores(rt: &HostRuntime, budget: u32, k: u32, hits: u32) -> anyhow::Result<()> {
    let memory = Counted::new(allocate_words(rt.alloc(), budget)?);
    let Ok(mut filter) = BloomFilter::new(budget, k, memory) else {
        return Err(anyhow!("no Bloom filter"));
    };
    let _ = record_all(&mut filter, Row(1), hits);
    let mut memory = filter.into_words();
    let record = each(memory.taken_since() as u128, hits);
    let Ok(filter) = BloomFilter::new(budget, k, memory) else {
        return Err(anyhow!("no Bloom filter"));
    };
    let empty = filter.into_words().taken_since();
    let words = bloom_words(budget);
    println!(rt; "stores {budget} {k} {hits} record {record} empty {empty} of {words}")?;
    Ok(())
}

// Budgets in bytes, positions, and as many fingerprints as leave half of the bits set: a filter that stays in the caches, and
// that of the default log.
const FILTERS: [(u32, u32, u32); 3] = [
    (131_072, 6, 60_000),
    (10_485_760, 6, 4_800_000),
    (10_485_760, 58, 500_000),
];

pub(crate) fn measure_bits(rt: &HostRuntime) -> anyhow::Result<()> {
    for (budget, k, hits) in FILTERS {
        measure(rt, budget, k, hits)?;
        count_stores(rt, budget, k, hits / 100)?;
        count_stores(rt, budget, k, hits)?;
    }
    Ok(())
}
