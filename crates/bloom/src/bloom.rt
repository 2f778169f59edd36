ghost use Rattle.std.specs.Prelude.{◌≡◌, ◌*◌, ◌<◌, ◌≤◌, ◌&&◌, length, is_ok, IfOk, if◌then◌else◌, MatchResult, nat_le};
ghost use Rattle.answers.specs.declared.Refusal.TheVariants.{HashCount, Capacity};
ghost use Rattle.bloom.specs.Sizes.{words_for, fits_hashes};
ghost use Rattle.bloom.specs.Stores.{Clears};
ghost use Rattle.bloom.specs.declared.sizes.TheConstants.{MAX_WORDS};

mod filtering;

use crate::bits::WORD_BITS;
use crate::sizes::{MAX_BUDGET, MAX_WORDS, bloom_words};
use crate::words::{Words, clear};
use answers::{Refusal, Refused};

/// The most hash positions.
pub const MAX_HASHES: u32 = 64;

/// A Bloom filter: k positions among the bits of its words stand for a fingerprint, and one is refused, by cause 13, where all
/// its k bits are set. None is ever sure. Its words are the first of its memory; those past them it neither reads nor stores.
#[derive(Drop)]
pub struct BloomFilter<W: Words> {
    pub(crate) memory: W,
    count: usize,
    k: u32,
    ghost some: { 0 < count },
    ghost few: { count ≤ MAX_WORDS },
    ghost fits: { count ≤ length (W.words memory) },
    ghost hashes: { 0 < k },
}

impl<W: Words> BloomFilter<W> {
    /// An empty filter for a budget in bytes (that of a log, of which a filter has half), with k positions, in memory of at least
    /// `bloom_words(budget)` words, whatever they are: each of so many that is not zero is stored once. Refused by 5 for a k outside
    /// 1 to 64, then by 7 for a budget over 16,777,216 or too few words; the memory then comes back, and nothing was stored.
    pub fn new(budget: u32, k: u32, mut memory: W) -> Result<BloomFilter<W>, Refused<W>>
        ensures answer { is_ok result ≡ (fits_hashes k && (nat_le budget MAX_BUDGET && nat_le (words_for budget) (length (W.words memory)))) }
        ensures cases { MatchResult result (λ b. (b.count ≡ words_for budget) × (b.k ≡ k)) (λ e. e ≡ record { refusal = (if fits_hashes k then Capacity else HashCount); back = memory }) }
        ensures memory { IfOk result (λ b. Clears W.stores W.words (words_for budget) memory b.memory) }
    {
        if k == 0 || k > MAX_HASHES {
            return Err(Refused {
                refusal: Refusal::HashCount,
                back: memory,
            });
        }
        if budget > MAX_BUDGET || memory.count() < bloom_words(budget) {
            return Err(Refused {
                refusal: Refusal::Capacity,
                back: memory,
            });
        }
        let count = bloom_words(budget);
        clear(&mut memory, count);
        Ok(BloomFilter { memory, count, k })
    }

    /// Takes the filter apart. Its memory comes back as it stands, with the bits in it: a filter of as many words can be made
    /// in it again.
    pub fn into_words(self) -> W
        ensures words { result ≡ self.memory }
        ensures enough { self.count ≤ length (W.words result) }
    {
        let BloomFilter { memory, .. } = self;
        memory
    }

    fn bits(&self) -> u64
        ensures { result ≡ self.now.count * WORD_BITS }
    {
        self.count as u64 * WORD_BITS
    }
}
