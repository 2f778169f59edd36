ghost use Rattle.std.specs.Prelude.{◌≡◌, ℕ, ◌*◌, ◌≤◌, true, List, IfOk};
ghost use Rattle.bloom.specs.Sizes.{half as half_of, fits_hashes, Largest};
ghost use Rattle.bloom.specs.HashCount.{hash_count, hash_count_by_half};
ghost use Rattle.token_log.specs.Budgets.{suits as suits_for, suits_both, JustSuits, GivesBack, Generation, Within, Budgeted, Makes, MakesUnused};
ghost use Rattle.token_log.specs.Successions.{Call, Leads};

use crate::{MAX_LIFETIME_NANOS, NANOS_PER_SECOND, TokenLog, TwoGenerationLog};
use answers::{Refusal, Refused};
use bloom::{
    BloomFilter, MAX_BUDGET, MAX_HASHES, Words, allocate_words, bloom_words, optimal_k_num,
    optimal_k_num_by_half, sure_count,
};
use filter::{ExactSet, Places, TurningFilter};
use std::alloc::{AllocError, Global};

/// The log of two generations of turning filters: each begins as a set and goes over to a Bloom filter, whose words stand in
/// memory of any kind; the usual one is a `Vec`.
pub type BloomTokenLog<W = Vec<u64>> = TwoGenerationLog<TurningFilter<ExactSet, BloomFilter<W>>>;

/// The budget in bytes of a log whose maker has no wish of their own.
pub const DEFAULT_BUDGET: u32 = 10_485_760;

/// The expected hits of such a log.
pub const DEFAULT_HITS: u32 = 1_000_000;

/// Memory for one generation: the places of its set, and the words of its Bloom filter.
#[derive(Drop)]
pub struct GenerationMemory<W = Vec<u64>> {
    pub places: Places,
    pub words: W,
}

/// Memory for a log, for each of its generations.
#[derive(Drop)]
pub struct LogMemory<W = Vec<u64>> {
    pub one: GenerationMemory<W>,
    pub two: GenerationMemory<W>,
}

/// The defaults, a second, and the longest lifetime are those of the rules.
pub fn the_limits_are_those_of_the_rules()
    ensures budget { DEFAULT_BUDGET ≡ 10485760 }
    ensures hits { DEFAULT_HITS ≡ 1000000 }
    ensures second { NANOS_PER_SECOND ≡ 1000000000 }
    ensures lifetime { MAX_LIFETIME_NANOS ≡ 1073741824 * NANOS_PER_SECOND }
{}

/// Of a log from a budget, over any memory for words, whatever calls it was asked, the memory that comes back is enough for a log of
/// that budget again: none is refused by 7.
pub fn a_log_gives_back_enough_for_another<W: Words>(_log: &BloomTokenLog<W>)
    ensures { (budget k c : ℕ) (s s' : _) (ks : List Call) (m : LogMemory W) → Budgeted budget k c s → Leads (⟦<BloomTokenLog<W> as TokenLog>⟧.logs) s ks s' → GivesBack s'.one m.one → GivesBack s'.two m.two → suits_both W.words budget c m ≡ true }
{}

impl GenerationMemory<Vec<u64>> {
    /// Memory for a generation under a budget in bytes, and no more: 28 bytes for each place of its set, and the words.
    pub fn allocate(heap: Global, budget: u32) -> Result<GenerationMemory<Vec<u64>>, AllocError>
        ensures enough { IfOk result (λ m. (c : ℕ) → Largest (half_of budget) c → suits_for (⟦<Vec<u64> as Words>⟧.words) budget c m ≡ true) }
        ensures no_more { IfOk result (λ m. (c : ℕ) → Largest (half_of budget) c → JustSuits budget c m) }
    {
        let places = Places::allocate(heap, sure_count(budget) + 1)?;
        let words = allocate_words(heap, budget)?;
        Ok(GenerationMemory { places, words })
    }
}

impl<W: Words> GenerationMemory<W> {
    /// Whether it is enough for a budget in bytes: of places, those that there is room for count, and of words those that are there.
    pub fn suits(&self, budget: u32) -> bool
        ensures { (c : ℕ) → Largest (half_of budget) c → result ≡ suits_for W.words budget c self.now }
    {
        self.places.room() > sure_count(budget) as usize
            && self.words.count() >= bloom_words(budget)
    }
}

impl LogMemory<Vec<u64>> {
    /// Memory for a log under a budget in bytes, and no more.
    pub fn allocate(heap: Global, budget: u32) -> Result<LogMemory<Vec<u64>>, AllocError>
        ensures enough { IfOk result (λ m. (c : ℕ) → Largest (half_of budget) c → suits_both (⟦<Vec<u64> as Words>⟧.words) budget c m ≡ true) }
        ensures no_more { IfOk result (λ m. (c : ℕ) → Largest (half_of budget) c → JustSuits budget c m.one × JustSuits budget c m.two) }
    {
        let one = GenerationMemory::allocate(heap, budget)?;
        let two = GenerationMemory::allocate(heap, budget)?;
        Ok(LogMemory { one, two })
    }
}

// The memory of a generation.
fn give_back<W: Words>(generation: TurningFilter<ExactSet, BloomFilter<W>>) -> GenerationMemory<W>
    ensures { GivesBack generation result }
{
    let (set, other) = generation.into_parts();
    GenerationMemory {
        places: set.into_places(),
        words: other.into_words(),
    }
}

// A generation of a sure count that took nothing yet.
fn generation<W: Words>(
    budget: u32,
    k: u32,
    sure: u32,
    memory: GenerationMemory<W>,
) -> TurningFilter<ExactSet, BloomFilter<W>>
    requires hashes { fits_hashes k ≡ true }
    requires budgets { budget ≤ MAX_BUDGET }
    requires sures { Largest (half_of budget) sure }
    requires enough { suits_for W.words budget sure memory ≡ true }
    ensures made { Generation budget k sure result }
    ensures within { Within budget memory result }
{
    let GenerationMemory { places, words } = memory;
    let set = ExactSet::new(sure + 1, places).unwrap();
    let other = BloomFilter::new(budget, k, words).unwrap();
    TurningFilter::new(set, other)
}

impl<W: Words> BloomTokenLog<W> {
    /// An unused log for a budget in bytes, with k hash positions. Refused by 5 for a k outside 1 to 64, then by 7 for a budget
    /// over 16,777,216 or too little memory for either generation; the memory then comes back as it was.
    pub fn with_hashes(
        budget: u32,
        k: u32,
        memory: LogMemory<W>,
    ) -> Result<BloomTokenLog<W>, Refused<LogMemory<W>>>
        ensures makes { Makes budget k memory result }
        ensures unused { MakesUnused budget result }
    {
        if k == 0 || k > MAX_HASHES {
            return Err(Refused {
                refusal: Refusal::HashCount,
                back: memory,
            });
        }
        if budget > MAX_BUDGET || !memory.one.suits(budget) || !memory.two.suits(budget) {
            return Err(Refused {
                refusal: Refusal::Capacity,
                back: memory,
            });
        }
        let sure = sure_count(budget);
        let LogMemory { one, two } = memory;
        Ok(TwoGenerationLog {
            period_start: 0,
            one: generation(budget, k, sure, one),
            two: generation(budget, k, sure, two),
        })
    }

    /// The same with as many positions as suit the expected hits. Refused by 5 where these are more than 64.
    pub fn with_expected_hits(
        budget: u32,
        hits: u32,
        memory: LogMemory<W>,
    ) -> Result<BloomTokenLog<W>, Refused<LogMemory<W>>>
        ensures makes { Makes budget (hash_count budget hits) memory result }
        ensures unused { MakesUnused budget result }
    {
        BloomTokenLog::with_hashes(budget, optimal_k_num(budget, hits), memory)
    }

    /// The same with as many positions as suit the expected hits of one generation, by 4 bits for each byte of the budget, its
    /// share. Refused by 5 where these are more than 64.
    pub fn with_expected_hits_by_half(
        budget: u32,
        hits: u32,
        memory: LogMemory<W>,
    ) -> Result<BloomTokenLog<W>, Refused<LogMemory<W>>>
        ensures makes { Makes budget (hash_count_by_half budget hits) memory result }
        ensures unused { MakesUnused budget result }
    {
        BloomTokenLog::with_hashes(budget, optimal_k_num_by_half(budget, hits), memory)
    }

    /// Takes the log apart: the memory of both generations comes back as it stands, whatever calls were made, and is enough for
    /// a log of the same budget again.
    pub fn into_memory(self) -> LogMemory<W>
        ensures one { GivesBack self.one result.one }
        ensures two { GivesBack self.two result.two }
    {
        let (one, two) = self.into_generations();
        LogMemory {
            one: give_back(one),
            two: give_back(two),
        }
    }

    /// An unused log for the default budget and hits, with as many positions as suit these. Refused by 7 for too little memory; it
    /// then comes back as it was.
    pub fn with_defaults(memory: LogMemory<W>) -> Result<BloomTokenLog<W>, Refused<LogMemory<W>>>
        ensures makes { Makes DEFAULT_BUDGET (hash_count DEFAULT_BUDGET DEFAULT_HITS) memory result }
        ensures unused { MakesUnused DEFAULT_BUDGET result }
    {
        BloomTokenLog::with_expected_hits(DEFAULT_BUDGET, DEFAULT_HITS, memory)
    }
}
