// Makes what the head asks for, and runs the rest of the script over it.
use crate::answer::print_refusal;
use crate::desk::{Desk, LENT_PATHS};
use crate::head::{GateHead, Limits, LogHead, SchemeHead, StoreHead};
use crate::script::Script;
use crate::session::Session;
use crate::words::MOST;
use answers::{Refusal, Refused};
use bloom::{
    BloomFilter, MAX_BUDGET, allocate_words, optimal_k_num, optimal_k_num_by_half, sure_count,
};
use ccm::CcmScheme;
use filter::{ExactSet, Places};
use gate::Gate;
use path_table::PathTable;
use record_pool::Record;
use sealing::{BenchScheme, SealingScheme};
use stateless_reset::{RESET_TOKEN_SIZE, ResetToken, ResetTokenTable};
use std::alloc::{AllocError, Global};
use std::io;
use std::io::BufRead;
use token_log::{BloomTokenLog, Lifetime, LogMemory, NoneTokenLog, TokenLog, TwoGenerationLog};
use token_memory_cache::{
    MAX_SERVER_NAMES, MAX_TOKENS_PER_SERVER, MemoryCache, NameEntry, NewestFirst, OldestFirst,
    TakeOrder, Text,
};
use token_store::{NoneTokenStore, TokenStore};

// The most places that the program has memory for: a larger set is refused.
const MOST_PLACES: u32 = 1_048_576;

// How many reset tokens the program has places for.
const RESET_PLACES: usize = 4;

// Why a run ends before its script does: what the head asks for is refused, or the program fails.
// Its conversions are written out: those from two errors go on into a third, which no derive does.
#[derive(Drop)]
enum Stop {
    Refused(Refusal),
    Failed(anyhow::Error),
}

impl From<Refusal> for Stop {
    fn from(refusal: Refusal) -> Stop {
        Stop::Refused(refusal)
    }
}

impl<T: Drop> From<Refused<T>> for Stop {
    fn from(refused: Refused<T>) -> Stop {
        Stop::Refused(refused.refusal)
    }
}

impl From<anyhow::Error> for Stop {
    fn from(error: anyhow::Error) -> Stop {
        Stop::Failed(error)
    }
}

impl From<AllocError> for Stop {
    fn from(error: AllocError) -> Stop {
        Stop::Failed(error.into())
    }
}

impl From<io::Error> for Stop {
    fn from(error: io::Error) -> Stop {
        Stop::Failed(error.into())
    }
}

// A refusal in the head is told, and ends the run.
pub(crate) fn run_script(rt: &impl Print, script: &mut Script<impl BufRead>) -> anyhow::Result<()> {
    match with_scheme(rt, script) {
        Ok(()) => Ok(()),
        Err(Stop::Refused(refusal)) => {
            print_refusal(rt, refusal)?;
            Ok(())
        }
        Err(Stop::Failed(error)) => Err(error),
    }
}

fn with_scheme(rt: &impl Print, script: &mut Script<impl BufRead>) -> Result<(), Stop> {
    match script.next_head(rt)? {
        Some(SchemeHead::Bench(key)) => {
            println!(rt; "scheme bench")?;
            with_log(rt, script, BenchScheme::new(key))
        }
        Some(SchemeHead::Ccm(secret)) => {
            println!(rt; "scheme ccm")?;
            with_log(rt, script, CcmScheme::new(&secret))
        }
        None => Ok(()),
    }
}

// A set of so many places, in memory of its own.
fn set(heap: Global, capacity: u32) -> Result<ExactSet, Stop> {
    let places = Places::allocate(heap, capacity.min(MOST_PLACES))?;
    Ok(ExactSet::new(capacity, places)?)
}

fn bloom(heap: Global, budget: u32, k: u32) -> Result<BloomFilter<Vec<u64>>, Stop> {
    let words = allocate_words(heap, budget.min(MAX_BUDGET))?;
    Ok(BloomFilter::new(budget, k, words)?)
}

// Memory for a log from a budget.
fn memory(heap: Global, budget: u32) -> Result<LogMemory, AllocError> {
    LogMemory::allocate(heap, budget.min(MAX_BUDGET))
}

fn turning(heap: Global, budget: u32, k: u32) -> Result<BloomTokenLog, Stop> {
    Ok(BloomTokenLog::with_hashes(budget, k, memory(heap, budget)?)?)
}

fn expected(heap: Global, budget: u32, hits: u32) -> Result<BloomTokenLog, Stop> {
    let memory = memory(heap, budget)?;
    Ok(BloomTokenLog::with_expected_hits(budget, hits, memory)?)
}

fn half(heap: Global, budget: u32, hits: u32) -> Result<BloomTokenLog, Stop> {
    let memory = memory(heap, budget)?;
    Ok(BloomTokenLog::with_expected_hits_by_half(budget, hits, memory)?)
}

// Tells what a log counted, and its sure count.
fn print_counted(rt: &impl Print, log: &str, k: u32, budget: u32) -> io::Result<()> {
    println!(rt; "log {log} k {k} sure {}", sure_count(budget))
}

fn with_log<S: SealingScheme + Drop>(
    rt: &impl Print,
    script: &mut Script<impl BufRead>,
    scheme: S,
) -> Result<(), Stop> {
    let heap = script.heap;
    match script.next_head(rt)? {
        Some(LogHead::None) => {
            println!(rt; "log none")?;
            with_gate(rt, script, scheme, NoneTokenLog)
        }
        Some(LogHead::Set { capacity }) => {
            let log = TwoGenerationLog::new(set(heap, capacity)?, set(heap, capacity)?);
            println!(rt; "log set sure {capacity}")?;
            with_gate(rt, script, scheme, log)
        }
        Some(LogHead::Bloom { budget, k }) => {
            let log = TwoGenerationLog::new(bloom(heap, budget, k)?, bloom(heap, budget, k)?);
            println!(rt; "log bloom sure 0")?;
            with_gate(rt, script, scheme, log)
        }
        Some(LogHead::Turning { budget, k }) => {
            let log = turning(heap, budget, k)?;
            println!(rt; "log turning sure {}", sure_count(budget))?;
            with_gate(rt, script, scheme, log)
        }
        Some(LogHead::Expected { budget, hits }) => {
            let log = expected(heap, budget, hits)?;
            print_counted(rt, "expected", optimal_k_num(budget, hits), budget)?;
            with_gate(rt, script, scheme, log)
        }
        Some(LogHead::Half { budget, hits }) => {
            let log = half(heap, budget, hits)?;
            print_counted(rt, "half", optimal_k_num_by_half(budget, hits), budget)?;
            with_gate(rt, script, scheme, log)
        }
        None => Ok(()),
    }
}

fn with_gate<S: SealingScheme + Drop, L: TokenLog + Drop>(
    rt: &impl Print,
    script: &mut Script<impl BufRead>,
    scheme: S,
    log: L,
) -> Result<(), Stop> {
    let Some(GateHead { retry, validation }) = script.next_head(rt)? else {
        return Ok(());
    };
    let retry = Lifetime::from_nanos(retry)?;
    let validation = Lifetime::from_nanos(validation)?;
    println!(rt; "gate")?;
    with_store(rt, script, Gate::new(scheme, log, retry, validation))
}

fn with_store<S: SealingScheme + Drop, L: TokenLog + Drop>(
    rt: &impl Print,
    script: &mut Script<impl BufRead>,
    gate: Gate<S, L>,
) -> Result<(), Stop> {
    match script.next_head(rt)? {
        Some(StoreHead::None) => {
            println!(rt; "store none")?;
            run_session(rt, script, gate, NoneTokenStore)
        }
        Some(StoreHead::Cache(limits)) => {
            with_cache::<S, L, OldestFirst>(rt, script, gate, limits, "cache")
        }
        Some(StoreHead::Newest(limits)) => {
            with_cache::<S, L, NewestFirst>(rt, script, gate, limits, "newest")
        }
        None => Ok(()),
    }
}

// A cache with takes in the order O, in memory for as much as its limits allow.
fn with_cache<S: SealingScheme + Drop, L: TokenLog + Drop, O: TakeOrder + Drop>(
    rt: &impl Print,
    script: &mut Script<impl BufRead>,
    gate: Gate<S, L>,
    limits: Limits,
    name: &str,
) -> Result<(), Stop> {
    let heap = script.heap;
    let Limits { names, tokens } = limits;
    let most = names.min(MAX_SERVER_NAMES) as usize;
    let each = tokens.min(MAX_TOKENS_PER_SERVER) as usize;
    let mut name_memory = vec![in heap; Record::new(NameEntry::new()); most]?;
    let mut token_memory = vec![in heap; Record::new(Text::new()); most * each]?;
    let cache = MemoryCache::<O>::new(names, tokens, &mut name_memory, &mut token_memory)?;
    println!(rt; "store {name}")?;
    run_session(rt, script, gate, cache)
}

fn run_session<S: SealingScheme + Drop, L: TokenLog + Drop, T: TokenStore + Drop>(
    rt: &impl Print,
    script: &mut Script<impl BufRead>,
    gate: Gate<S, L>,
    store: T,
) -> Result<(), Stop> {
    let out = vec![in script.heap; 0; MOST]?;
    let working = vec![in script.heap; 0; MOST]?;
    let blank = Record::new(ResetToken::from([0; RESET_TOKEN_SIZE]));
    let mut places = [blank; RESET_PLACES];
    let resets = ResetTokenTable::new(&mut places)?;
    let mut records = [Record::new(None); LENT_PATHS];
    let desk = Desk::new(PathTable::new(&mut records)?);
    let mut session = Session::new(gate, store, desk, resets, out, working);
    let ran = script.run(rt, &mut session);
    session.end();
    Ok(ran?)
}
