ghost use Rattle.std.specs.Prelude.{◌≡◌, ℕ, ◌<◌, List, length, vec_capacity};
ghost use Rattle.std.specs.List.{AllByRecursion};
ghost use Rattle.filter.specs.Filter.{Answer};
ghost use Rattle.filter.specs.Histories.{AnswersBy, TakesRefusedAsRecorded};
ghost use Rattle.bloom.specs.Marks.{bloom_says};
ghost use Rattle.bloom.specs.Means.{words_of, bits_of, stores_of};
ghost use Rattle.bloom.specs.Stores.{Store, Stored, Clears, clearing};
ghost use Rattle.bloom.specs.Changes.{bits_set, words_altered};

use crate::{BloomFilter, Words};
use filter::Filter;

/// Over any memory: once it is emptied, a Bloom filter refuses just what has all its positions among those of what it recorded
/// since; and what it refuses may be counted as recorded.
pub fn bloom_filters_answer_by_what_they_recorded<W: Words>(_filter: &BloomFilter<W>)
    ensures answers { (b : _) → AnswersBy (⟦<BloomFilter<W> as Filter>⟧.records) (⟦<BloomFilter<W> as Filter>⟧.empties) (bloom_says (bits_of b) b.k) b }
    ensures takes { (m k : ℕ) → TakesRefusedAsRecorded (bloom_says m k) }
{}

/// Over any memory: a record makes just as many stores as it sets bits, and an emptying, as the making of a filter, as many as it
/// alters words, so that none is undone by the same call; and none to a word past the filter's own.
pub fn a_call_stores_as_often_as_it_changes<W: Words>(_filter: &BloomFilter<W>)
    ensures recorded { (b b' : _) (f : ℕ) (r : Answer) → ⟦<BloomFilter<W> as Filter>⟧.records b f r b' → length (stores_of b f r) ≡ bits_set (bits_of b) (words_of b) (words_of b') }
    ensures records_within { (b b' : _) (f : ℕ) (r : Answer) → ⟦<BloomFilter<W> as Filter>⟧.records b f r b' → AllByRecursion (λ s. s.at < b.count) (stores_of b f r) }
    ensures cleared { (n : ℕ) (w w' : W) → Clears W.stores W.words n w w' → length (clearing (W.words w) n) ≡ words_altered n (W.words w) (W.words w') }
    ensures clears_within { (n : ℕ) (w : W) → AllByRecursion (λ s. s.at < n) (clearing (W.words w) n) }
{}

/// A `Vec` keeps the capacity it had, whatever is stored to it: a filter over one asks for no memory and gives none back.
pub fn a_vec_keeps_its_capacity()
    ensures { (v v' : _) (xs : List Store) → Stored (⟦<Vec<u64> as Words>⟧.stores) v xs v' → vec_capacity v' ≡ vec_capacity v }
{}
