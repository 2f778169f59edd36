use anyhow::Context;
use filter::{ExactSet, Places};
use std::alloc::Global;
use token_log::{Lifetime, TokenLog, TwoGenerationLog};

// The sure count of each generation.
const SURE: u32 = 4;

const TEN_SECONDS: u64 = 10_000_000_000;

// Low halves and issue times of tokens that come to the log, over four periods.
const TOKENS: [(u64, u32); 8] = [
    (7, 1000),
    (8, 999),
    (7, 1000),
    (9, 1010),
    (10, 1020),
    (9, 1010),
    (11, 1050),
    (10, 1020),
];

fn set(heap: Global) -> anyhow::Result<ExactSet> {
    ExactSet::new(SURE, Places::allocate(heap, SURE)?)
        .ok()
        .context("a set was refused")
}

// Runs a log over four periods, and prints what it answers to each token.
pub(crate) fn run_log(rt: &impl Print, heap: Global) -> anyhow::Result<()> {
    let mut log = TwoGenerationLog::new(set(heap)?, set(heap)?);
    let lifetime = Lifetime::from_nanos(TEN_SECONDS)
        .ok()
        .context("a lifetime of ten seconds was refused")?;
    println!(rt; "log of two sets of {SURE}, lifetime 10 s")?;
    for (low, issued) in TOKENS {
        match log.check_and_insert(low, issued, lifetime) {
            Ok(()) => println!(rt; "low half {low} issued {issued}: accepted")?,
            Err(cause) => println!(rt;
                "low half {low} issued {issued}: refused {}",
                cause.number()
            )?,
        }
    }
    Ok(())
}
