use super::*;
use answers::Refusal;
use bloom::{BloomFilter, MAX_BUDGET, MAX_HASHES, optimal_k_num};
use filter::{ExactSet, Places};
use std::alloc::Global;
use std::test::Fail;

fn seconds(count: u64) -> Result<Lifetime, Fail> {
    Ok(Lifetime::from_nanos(count.saturating_mul(NANOS_PER_SECOND))?)
}

fn set(heap: Global, capacity: u32) -> Result<ExactSet, Fail> {
    ExactSet::new(capacity, Places::allocate(heap, capacity)?).map_err(|_| Fail::new("a set"))
}

#[test]
fn across_four_periods(rt: HostRuntime) -> Result<(), Fail> {
    let mut log = TwoGenerationLog::new(set(rt.alloc(), 4)?, set(rt.alloc(), 4)?);
    let ten = seconds(10)?;
    assert_eq!(rt; log.check_and_insert(7, 1000, ten), Ok(()));
    assert_eq!(rt; log.check_and_insert(8, 999, ten), Ok(()));
    assert_eq!(rt; log.check_and_insert(7, 1000, ten), Err(LogCause::Held));
    assert_eq!(rt; log.check_and_insert(9, 1010, ten), Ok(()));
    assert_eq!(rt; log.check_and_insert(10, 1020, ten), Ok(()));
    assert_eq!(rt; log.check_and_insert(9, 1010, ten), Err(LogCause::Held));
    assert_eq!(rt; log.check_and_insert(11, 1050, ten), Ok(()));
    assert_eq!(rt;
        log.check_and_insert(10, 1020, ten),
        Err(LogCause::BeforePeriod)
    );
    Ok(())
}

// The last second that a token can carry, and the longest lifetime.
#[test]
fn the_latest_times(rt: HostRuntime) -> Result<(), Fail> {
    let mut log = TwoGenerationLog::new(set(rt.alloc(), 2)?, set(rt.alloc(), 2)?);
    let longest = Lifetime::from_nanos(MAX_LIFETIME_NANOS)?;
    assert_eq!(rt; log.check_and_insert(1, u32::MAX, longest), Ok(()));
    assert_eq!(rt;
        log.check_and_insert(1, u32::MAX, longest),
        Err(LogCause::Held)
    );
    assert_eq!(rt; log.check_and_insert(2, u32::MAX, longest), Ok(()));
    assert_eq!(rt;
        log.check_and_insert(3, u32::MAX, longest),
        Err(LogCause::Full)
    );
    assert_eq!(rt;
        log.check_and_insert(3, 0, longest),
        Err(LogCause::BeforePeriod)
    );
    Ok(())
}

#[test]
fn lifetimes(rt: HostRuntime) -> Result<(), Fail> {
    let mut log = TwoGenerationLog::new(set(rt.alloc(), 1)?, set(rt.alloc(), 1)?);
    assert_eq!(rt;
        log.check_and_insert(1, 5, seconds(0)?),
        Err(LogCause::ZeroLifetime)
    );
    assert_eq!(rt;
        Lifetime::from_nanos(MAX_LIFETIME_NANOS + 1),
        Err(Refusal::LongLifetime)
    );
    assert_eq!(rt; seconds(1_073_741_824)?.nanos(), MAX_LIFETIME_NANOS);
    Ok(())
}

#[test]
fn a_log_that_bars_everything(rt: HostRuntime) -> Result<(), Fail> {
    let mut log = NoneTokenLog;
    assert_eq!(rt;
        log.check_and_insert(1, 5, seconds(10)?),
        Err(LogCause::Held)
    );
    Ok(())
}

// Budget 48 has the sure count 3: a fourth low half makes a generation go over, and it still knows all four.
#[test]
fn from_a_budget(rt: HostRuntime) -> Result<(), Fail> {
    let Ok(mut log) = BloomTokenLog::with_hashes(48, 3, LogMemory::allocate(rt.alloc(), 48)?) else {
        return Err(Fail::new("a log of 48 bytes"));
    };
    let ten = seconds(10)?;
    for low in 1..5 {
        assert_eq!(rt; log.check_and_insert(low, 1000, ten), Ok(()));
    }
    for low in 1..5 {
        assert_eq!(rt; log.check_and_insert(low, 1000, ten), Err(LogCause::Held));
    }
    assert_eq!(rt; log.check_and_insert(1, 1020, ten), Ok(()));
    Ok(())
}

// A log is made twice in one memory, of which the first one gave back all.
#[test]
fn one_memory_for_two_logs(rt: HostRuntime) -> Result<(), Fail> {
    let memory = LogMemory::allocate(rt.alloc(), 48)?;
    let Ok(mut log) = BloomTokenLog::with_hashes(48, 3, memory) else {
        return Err(Fail::new("a log of 48 bytes"));
    };
    let ten = seconds(10)?;
    for low in 1..6 {
        assert_eq!(rt; log.check_and_insert(low, 1000, ten), Ok(()));
    }
    assert_eq!(rt; log.check_and_insert(6, 1050, ten), Ok(()));
    let Ok(mut log) = BloomTokenLog::with_hashes(48, 3, log.into_memory()) else {
        return Err(Fail::new("a log in the memory of another"));
    };
    for low in 1..6 {
        assert_eq!(rt; log.check_and_insert(low, 1000, ten), Ok(()));
    }
    let (one, _) = log.into_generations();
    let (set, other) = one.into_parts();
    assert!(rt; ExactSet::new(4, set.into_places()).is_ok());
    assert!(rt; BloomFilter::new(48, 3, other.into_words()).is_ok());
    Ok(())
}

#[test]
fn refusals_of_budgets(rt: HostRuntime) -> Result<(), Fail> {
    let memory = LogMemory::allocate(rt.alloc(), 48)?;
    let Err(back) = BloomTokenLog::with_hashes(MAX_BUDGET + 1, MAX_HASHES + 1, memory) else {
        return Err(Fail::new("65 positions"));
    };
    assert_eq!(rt; back.refusal, Refusal::HashCount);
    let Err(back) = BloomTokenLog::with_hashes(MAX_BUDGET + 1, MAX_HASHES, back.back) else {
        return Err(Fail::new("a budget too large"));
    };
    assert_eq!(rt; back.refusal, Refusal::Capacity);
    let Err(back) = BloomTokenLog::with_expected_hits(112, 28, back.back) else {
        return Err(Fail::new("too little memory"));
    };
    assert_eq!(rt; back.refusal, Refusal::Capacity);
    assert!(rt; BloomTokenLog::with_expected_hits(48, 28, back.back).is_ok());
    Ok(())
}

// By half a budget of 23 bytes one hit has 64 positions, by half of 24 it has 67.
#[test]
fn positions_by_half(rt: HostRuntime) -> Result<(), Fail> {
    let memory = LogMemory::allocate(rt.alloc(), 24)?;
    let Err(back) = BloomTokenLog::with_expected_hits_by_half(24, 1, memory) else {
        return Err(Fail::new("67 positions"));
    };
    assert_eq!(rt; back.refusal, Refusal::HashCount);
    let Err(back) = BloomTokenLog::with_expected_hits(23, 1, back.back) else {
        return Err(Fail::new("128 positions"));
    };
    assert_eq!(rt; back.refusal, Refusal::HashCount);
    let Err(back) = BloomTokenLog::with_expected_hits_by_half(MAX_BUDGET + 1, 1_000_000, back.back)
    else {
        return Err(Fail::new("a budget too large"));
    };
    assert_eq!(rt; back.refusal, Refusal::Capacity);
    assert!(rt; BloomTokenLog::with_expected_hits_by_half(23, 1, back.back).is_ok());
    Ok(())
}

#[test]
fn defaults(rt: HostRuntime) -> Result<(), Fail> {
    assert_eq!(rt; optimal_k_num(DEFAULT_BUDGET, DEFAULT_HITS), 58);
    let memory = LogMemory::allocate(rt.alloc(), DEFAULT_BUDGET)?;
    let Ok(mut log) = BloomTokenLog::with_defaults(memory) else {
        return Err(Fail::new("a log of the default budget"));
    };
    assert_eq!(rt; log.check_and_insert(1, 5, seconds(10)?), Ok(()));
    Ok(())
}
