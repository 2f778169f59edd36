ghost use Rattle.std.specs.Prelude.{◌≡◌, ◌≤◌, replicate, IfOk, vec_capacity};
ghost use Rattle.bloom.specs.Sizes.{half as half_of, words_for, Largest};

use crate::bits::WORD_BITS;
use crate::bloom::MAX_HASHES;
use filter::filled;
use std::alloc::{AllocError, Global};

/// The largest byte budget.
pub const MAX_BUDGET: u32 = 16_777_216;

// The most words: those of the largest budget.
pub(crate) const MAX_WORDS: usize = MAX_BUDGET as usize / 16;

/// The largest budget, the most positions and the bits of a word are those of the rules.
pub fn the_limits_are_those_of_the_rules()
    ensures budget { MAX_BUDGET ≡ 16777216 }
    ensures hashes { MAX_HASHES ≡ 64 }
    ensures bits { WORD_BITS ≡ 64 }
{}

/// The sure count of a turning filter that a budget in bytes allows: its set has one place more.
pub fn sure_count(budget: u32) -> u32
    ensures { Largest (half_of budget) result }
{
    match budget / 2 {
        0..=23 => 0,
        24..=55 => 3,
        half => 7 << (half / 56).ilog2(),
    }
}

/// How many words of 64 bits a Bloom filter has under a budget in bytes, at least 1.
pub fn bloom_words(budget: u32) -> usize
    ensures { result ≡ words_for budget }
{
    (budget as usize / 2).div_ceil(8).max(1)
}

/// Memory for the words of a Bloom filter under a budget in bytes, and no more: they are there, and zero.
pub fn allocate_words(heap: Global, budget: u32) -> Result<Vec<u64>, AllocError>
    ensures blank { IfOk result (λ v. v.items ≡ replicate (words_for budget) 0) }
    ensures room { IfOk result (λ v. vec_capacity v ≡ words_for budget) }
{
    let count = bloom_words(budget);
    let memory = Vec::with_capacity(heap, count)?;
    Ok(filled(memory, 0, count).unwrap())
}
