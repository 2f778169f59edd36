use super::*;
use answers::{FilterCause, LogCause, Refusal};
use filter::{ExactSet, Filter, ListingFilter, Places, TurningFilter};
use gate::Gate;
use sealing::{BenchScheme, MAX_TOKEN_LEN, Nonce, WORKING_LEN};
use stateless_reset::{RESET_WORKING_LEN, ResetToken};
use std::alloc::Global;
use std::process::Abort;
use std::string::String;
use std::test::Fail;
use token_log::{BloomTokenLog, GenerationMemory, Lifetime, LogMemory, TokenLog, TwoGenerationLog};
use token_store::TokenStore;
use wire::{IpAddr, SocketAddr};

const SECOND: u64 = 1_000_000_000;

fn minute() -> Result<Lifetime, Fail> {
    Ok(Lifetime::from_nanos(60 * SECOND)?)
}

#[test]
fn a_log_of_pairs(rt: HostRuntime) -> Result<(), Fail> {
    let mut log = PairLog::new(Vec::with_capacity(rt.alloc(), 2)?);
    let lifetime = minute()?;
    assert_eq!(rt; log.check_and_insert(7, 1000, lifetime), Ok(()));
    assert_eq!(rt;
        log.check_and_insert(7, 1000, lifetime),
        Err(LogCause::Held)
    );
    assert_eq!(rt; log.check_and_insert(7, 1001, lifetime), Ok(()));
    assert_eq!(rt;
        log.check_and_insert(8, 1000, lifetime),
        Err(LogCause::Full)
    );
    assert_eq!(rt;
        log.check_and_insert(7, 1001, lifetime),
        Err(LogCause::Held)
    );
    Ok(())
}

#[test]
fn a_store_of_one_token(rt: HostRuntime) -> Result<(), Fail> {
    let mut store = OneToken::new(Vec::new(rt.alloc()), Vec::new(rt.alloc()));
    let mut out = [0; 512];
    assert_eq!(rt; store.take("crane", &mut out), Ok(None));
    assert_eq!(rt; store.insert("crane", b"first"), Ok(()));
    assert_eq!(rt; store.insert("crane", b"second"), Ok(()));
    assert_eq!(rt; store.take("mast", &mut out), Ok(None));
    assert_eq!(rt; store.take("crane", &mut out), Ok(Some(6)));
    assert!(rt; &out[..6] == b"second".as_slice());
    assert_eq!(rt; store.take("crane", &mut out), Ok(None));
    assert_eq!(rt; store.insert("crane", &[0; 513]), Err(Refusal::LongEntry));
    Ok(())
}

// A token that comes twice is honoured once.
#[test]
fn guests_at_a_gate(rt: HostRuntime) -> Result<(), Fail> {
    let log = PairLog::new(Vec::with_capacity(rt.alloc(), 2)?);
    let mut gate = Gate::new(BenchScheme::new([3; 16]), log, minute()?, minute()?);
    let address = SocketAddr {
        ip: IpAddr::V4([192, 0, 2, 7]),
        port: 4433,
    };
    let mut token = [0; MAX_TOKEN_LEN];
    let mut working = [0; WORKING_LEN];
    let Ok(len) = gate.issue(
        Nonce::new(7, 9),
        address.ip,
        1000 * SECOND,
        &mut token,
        &mut working,
    ) else {
        return Err(Fail::new("an issue"));
    };
    let mut guests = Vec::with_capacity(rt.alloc(), 2)?;
    for _ in 0..2 {
        guests.push(Guest {
            token: Vec::from_slice(rt.alloc(), &token[..len])?,
            destination: Vec::new(rt.alloc()),
            address,
            clock: 1001 * SECOND,
        })?;
    }
    let mut honoured = [false; 2];
    serve_all(&mut gate, &guests, &mut honoured, &mut working);
    assert_eq!(rt; honoured, [true, false]);
    Ok(())
}

fn few(heap: Global, places: usize) -> Result<Few, Fail> {
    Few::new(Vec::with_capacity(heap, places)?).map_err(|_| Fail::new("a list"))
}

#[test]
fn a_filter_that_is_a_list(rt: HostRuntime) -> Result<(), Fail> {
    let mut list = few(rt.alloc(), 2)?;
    assert_eq!(rt; list.record(7), Ok(()));
    assert_eq!(rt; list.record(7), Err(FilterCause::Held));
    assert_eq!(rt; list.sure(), 1);
    assert_eq!(rt; list.record(8), Ok(()));
    assert_eq!(rt; list.record(9), Err(FilterCause::Full));
    assert_eq!(rt; list.tell(1), Some(8));
    assert!(rt; list.holds(8) && !list.holds(9));
    Ok(())
}

// A list of two goes over to a list of three, in each generation of a log.
#[test]
fn lists_in_a_log(rt: HostRuntime) -> Result<(), Fail> {
    let one = TurningFilter::new(few(rt.alloc(), 2)?, few(rt.alloc(), 3)?);
    let two = TurningFilter::new(few(rt.alloc(), 2)?, few(rt.alloc(), 3)?);
    let mut log = TwoGenerationLog::new(one, two);
    let lifetime = minute()?;
    for low in 1..=3 {
        assert_eq!(rt; log.check_and_insert(low, 1000, lifetime), Ok(()));
        assert_eq!(rt;
            log.check_and_insert(low, 1000, lifetime),
            Err(LogCause::Held)
        );
    }
    assert_eq!(rt;
        log.check_and_insert(4, 1000, lifetime),
        Err(LogCause::Full)
    );
    Ok(())
}

fn set(heap: Global, capacity: u32) -> Result<ExactSet, Fail> {
    ExactSet::new(capacity, Places::allocate(heap, capacity)?).map_err(|_| Fail::new("a set"))
}

// What a filter tells, one after the other, as service prints it.
fn listing<S: ListingFilter>(heap: Global, filter: &S) -> Result<String, Fail> {
    let mut print = String::new(heap);
    for i in 0..filter.told() {
        if let Some(f) = filter.tell(i) {
            let entry = format!(in heap; "{i}: {f}; ")?;
            print.push_str(&entry)?;
        }
    }
    Ok(print)
}

// Any filter of three places or more that lists and has told nothing yet is printed in the order of first recording.
fn is_printed_in_order<S: ListingFilter>(
    rt: &impl Abort,
    heap: Global,
    filter: &mut S,
) -> Result<(), Fail> {
    for f in [9, 3, 7] {
        assert_eq!(rt; filter.record_listed(f), Ok(()));
    }
    assert_eq!(rt; filter.record_listed(3), Err(FilterCause::Held));
    let before = listing(heap, filter)?;
    assert_eq!(rt; before.as_str(), "0: 9; 1: 3; 2: 7; ");
    filter.empty_listed();
    let emptied = listing(heap, filter)?;
    assert_eq!(rt; emptied.as_str(), "");
    for f in [7, 8, 9] {
        assert_eq!(rt; filter.record_listed(f), Ok(()));
    }
    let after = listing(heap, filter)?;
    assert_eq!(rt; after.as_str(), "0: 7; 1: 8; 2: 9; ");
    Ok(())
}

#[test]
fn listings_are_printed(rt: HostRuntime) -> Result<(), Fail> {
    is_printed_in_order(&rt, rt.alloc(), &mut set(rt.alloc(), 3)?)?;
    is_printed_in_order(&rt, rt.alloc(), &mut few(rt.alloc(), 3)?)?;
    let mut over = TurningFilter::new(set(rt.alloc(), 4)?, few(rt.alloc(), 9)?);
    is_printed_in_order(&rt, rt.alloc(), &mut over)
}

// Gone over it tells none, and the other filter, here a set, has recorded all in that order.
#[test]
fn gone_over_in_order(rt: HostRuntime) -> Result<(), Fail> {
    let mut filter = TurningFilter::new(few(rt.alloc(), 4)?, set(rt.alloc(), 9)?);
    for f in [7, 1, 9, 5, 4] {
        assert_eq!(rt; filter.record_listed(f), Ok(()));
    }
    let over = listing(rt.alloc(), &filter)?;
    assert_eq!(rt; over.as_str(), "");
    let (_, other) = filter.into_parts();
    let poured = listing(rt.alloc(), &other)?;
    assert_eq!(rt; poured.as_str(), "0: 7; 1: 1; 2: 9; 3: 5; 4: 4; ");
    Ok(())
}

// Memory for a generation of budget 48: places for its three sure ones and one more, and one word more than its three.
fn in_banks(heap: Global) -> Result<GenerationMemory<Banks>, Fail> {
    let low = vec![in heap; 7]?;
    let high = vec![in heap; u64::MAX, 0, 9]?;
    Ok(GenerationMemory {
        places: Places::allocate(heap, 4)?,
        words: Banks { low, high },
    })
}

// A log from a budget, whose words lie in two banks and held something before; its fourth low half makes it go over.
#[test]
fn banks_in_a_log(rt: HostRuntime) -> Result<(), Fail> {
    let one = in_banks(rt.alloc())?;
    let two = in_banks(rt.alloc())?;
    let Ok(mut log) = BloomTokenLog::with_hashes(48, 3, LogMemory { one, two }) else {
        return Err(Fail::new("a log of 48 bytes"));
    };
    let lifetime = minute()?;
    for low in 1..=5 {
        assert_eq!(rt; log.check_and_insert(low, 1000, lifetime), Ok(()));
        assert_eq!(rt;
            log.check_and_insert(low, 1000, lifetime),
            Err(LogCause::Held)
        );
    }
    // 1 to 5 have the positions 1, 2, 3 to 5, 6, 7.
    let memory = log.into_memory();
    assert!(rt; memory.one.words.low.as_slice() == [0].as_slice());
    assert!(rt; memory.one.words.high.as_slice() == [0, 0, 9].as_slice());
    assert!(rt; memory.two.words.low.as_slice() == [0xfe].as_slice());
    assert!(rt; memory.two.words.high.as_slice() == [0, 0, 9].as_slice());
    Ok(())
}

// The token was computed with Python's `hmac`.
#[test]
fn a_key_of_each_id(rt: HostRuntime) -> Result<(), Fail> {
    let mut working = [9; RESET_WORKING_LEN];
    let token = ResetToken::new(
        &DerivingKey::new(b"Jefe"),
        &[0xaa, 0xbb, 0xcc, 0xdd],
        &mut working,
    )?;
    assert_eq!(rt;
        *token.as_bytes(),
        [
            0xdf, 0xaa, 0x22, 0xf1, 0x05, 0x06, 0xb7, 0xd0, 0x40, 0x28, 0xc3, 0x51, 0xf7, 0x12,
            0x06, 0x5a
        ]
    );
    assert_eq!(rt; working, [0; RESET_WORKING_LEN]);
    Ok(())
}
