use super::*;
use crate::hash_counts::{HASH_COUNTS, HASH_COUNTS_BY_HALF};
use answers::{FilterCause, Refusal};
use filter::{ExactSet, Filter, ListingFilter, Places, TurningFilter};
use std::alloc::Global;
use std::process::Abort;
use std::test::Fail;

#[test]
fn sizes_of_budgets(rt: HostRuntime) -> Result<(), Fail> {
    assert_eq!(rt; sure_count(47), 0);
    assert_eq!(rt; sure_count(48), 3);
    assert_eq!(rt; sure_count(112), 7);
    assert_eq!(rt; sure_count(128), 7);
    assert_eq!(rt; sure_count(MAX_BUDGET), 917_504);
    assert_eq!(rt; bloom_words(0), 1);
    assert_eq!(rt; bloom_words(18), 2);
    assert_eq!(rt; bloom_words(MAX_BUDGET), 1_048_576);
    Ok(())
}

// The bits that a fingerprint sets among 64, with three positions.
fn bits_of(rt: &impl Abort, heap: Global, f: u64) -> Result<Option<u64>, Fail> {
    let words = allocate_words(heap, 0)?;
    let Ok(mut bloom) = BloomFilter::new(0, 3, words) else {
        return Ok(None);
    };
    assert_eq!(rt; bloom.record(f), Ok(()));
    assert_eq!(rt; bloom.record(f), Err(FilterCause::Held));
    Ok(bloom.memory.first().copied())
}

// Memory that counts its stores.
#[derive(Drop)]
struct Counting {
    held: Vec<u64>,
    stores: u32,
}

impl Words for Counting {
    ghost use Rattle.std.specs.Prelude.{◌≡◌, ◌+◌, ◌%◌, ◌^◌, slice_set};

    ghost words = { λ c. c.held.items };

    ghost stores = { λ c at word c'. (c'.held.items ≡ slice_set c.held.items at word) × (c'.stores ≡ (c.stores + 1) % 2 ^ 32) };

    ghost stored = { λ _ _ _ _ s. s.0 };

    fn count(&self) -> usize {
        self.held.len()
    }

    fn word(&self, at: usize) -> u64 {
        self.held[at]
    }

    fn store(&mut self, at: usize, word: u64) {
        self.held[at] = word;
        self.stores = self.stores.wrapping_add(1);
    }
}

impl Counting {
    // How many words are not zero, and how many bits are set, among the first two.
    fn tallies(&self) -> (u32, u32) {
        let mut words: u32 = 0;
        let mut bits: u32 = 0;
        for word in self.held.iter().take(2) {
            if *word != 0 {
                words = words.wrapping_add(1);
            }
            bits = bits.wrapping_add(word.count_ones());
        }
        (words, bits)
    }
}

const HELD: [u64; 4] = [0, 1, 0x8000_0000_0000_0000, u64::MAX];

// Over memories of three words, of which a filter has two: it stores each that is not zero as it is made and as it is emptied,
// one for each bit that it sets as it records, and nothing to the third.
fn stores_in(rt: &impl Abort, held: Vec<u64>, k: u32) -> Result<(), Fail> {
    let last = held.last().copied();
    let memory = Counting { held, stores: 0 };
    let (words, _) = memory.tallies();
    let Ok(mut bloom) = BloomFilter::new(32, k, memory) else {
        return Err(Fail::new("a filter of two words"));
    };
    assert_eq!(rt; bloom.memory.stores, words);
    for f in 0..130 {
        let (_, before) = bloom.memory.tallies();
        let earlier = bloom.memory.stores;
        let answer = bloom.record(f | (f << 33));
        let (_, after) = bloom.memory.tallies();
        let stores = bloom.memory.stores.wrapping_sub(earlier);
        assert_eq!(rt; stores, after.wrapping_sub(before));
        assert_eq!(rt; answer.is_ok(), stores != 0);
        assert!(rt; stores <= k);
    }
    let (words, _) = bloom.memory.tallies();
    let emptied = bloom.memory.stores.wrapping_add(words);
    bloom.empty();
    assert_eq!(rt; bloom.memory.stores, emptied);
    assert_eq!(rt; bloom.memory.tallies(), (0, 0));
    bloom.empty();
    assert_eq!(rt; bloom.memory.stores, emptied);
    assert_eq!(rt; bloom.memory.held.last().copied(), last);
    Ok(())
}

#[test]
fn stores_over_small_cases(rt: HostRuntime) -> Result<(), Fail> {
    for one in HELD {
        for two in HELD {
            for three in HELD {
                for k in 1..5 {
                    stores_in(&rt, vec![in rt.alloc(); one, two, three]?, k)?;
                }
            }
        }
    }
    Ok(())
}

// Fingerprint 5 has positions 5, 6, 7, and 6 has 6, 7, 8. Refused, a memory comes back with no store.
#[test]
fn stores_one_by_one(rt: HostRuntime) -> Result<(), Fail> {
    let held = vec![in rt.alloc(); 0, 7, u64::MAX, 9]?;
    let Err(back) = BloomFilter::new(80, 3, Counting { held, stores: 0 }) else {
        return Err(Fail::new("four words for five"));
    };
    assert_eq!(rt; back.refusal, Refusal::Capacity);
    assert_eq!(rt; back.back.stores, 0);
    let Ok(mut bloom) = BloomFilter::new(48, 3, back.back) else {
        return Err(Fail::new("a filter of three words"));
    };
    assert_eq!(rt; bloom.memory.stores, 2);
    assert_eq!(rt; bloom.record(5), Ok(()));
    assert_eq!(rt; bloom.memory.stores, 5);
    assert_eq!(rt; bloom.record(5), Err(FilterCause::Held));
    assert_eq!(rt; bloom.record(6), Ok(()));
    assert_eq!(rt; bloom.memory.stores, 6);
    bloom.empty();
    assert_eq!(rt; bloom.memory.stores, 7);
    let memory = bloom.into_words();
    assert_eq!(rt; memory.stores, 7);
    assert!(rt; memory.held.as_slice() == [0, 0, 0, 9].as_slice());
    Ok(())
}

#[test]
fn positions(rt: HostRuntime) -> Result<(), Fail> {
    assert_eq!(rt;
        bits_of(&rt, rt.alloc(), 5)?,
        Some(1 << 5 | 1 << 6 | 1 << 7)
    );
    assert_eq!(rt;
        bits_of(&rt, rt.alloc(), 8_589_934_597)?,
        Some(1 << 5 | 1 << 8 | 1 << 11)
    );
    Ok(())
}

#[test]
fn hash_counts_of_the_rust(rt: HostRuntime) -> Result<(), Fail> {
    assert_eq!(rt; optimal_k_num(10_485_760, 1_000_000), 58);
    for row in HASH_COUNTS.iter() {
        assert_eq!(rt; optimal_k_num(row[0], row[1]), row[2]);
    }
    Ok(())
}

#[test]
fn hash_counts_by_half(rt: HostRuntime) -> Result<(), Fail> {
    assert_eq!(rt; optimal_k_num_by_half(10_485_760, 1_000_000), 29);
    assert_eq!(rt; optimal_k_num_by_half(3, 2), 4);
    for (row, &k) in HASH_COUNTS.iter().zip(HASH_COUNTS_BY_HALF.iter()) {
        assert_eq!(rt; optimal_k_num_by_half(row[0], row[1]), k);
    }
    Ok(())
}

#[test]
fn refusals(rt: HostRuntime) -> Result<(), Fail> {
    let words = allocate_words(rt.alloc(), 128)?;
    let Err(back) = BloomFilter::new(MAX_BUDGET + 1, 0, words) else {
        return Err(Fail::new("no hash positions"));
    };
    assert_eq!(rt; back.refusal, Refusal::HashCount);
    let Err(back) = BloomFilter::new(MAX_BUDGET + 1, MAX_HASHES, back.back) else {
        return Err(Fail::new("a budget too large"));
    };
    assert_eq!(rt; back.refusal, Refusal::Capacity);
    let Err(back) = BloomFilter::new(MAX_BUDGET, MAX_HASHES, back.back) else {
        return Err(Fail::new("too few words"));
    };
    assert_eq!(rt; back.refusal, Refusal::Capacity);
    assert!(rt; BloomFilter::new(128, MAX_HASHES, back.back).is_ok());
    Ok(())
}

#[test]
fn an_exact_set(rt: HostRuntime) -> Result<(), Fail> {
    let Err(back) = ExactSet::new(0, Places::allocate(rt.alloc(), 2)?) else {
        return Err(Fail::new("a set without a place"));
    };
    assert_eq!(rt; back.refusal, Refusal::Capacity);
    let Ok(mut set) = ExactSet::new(2, back.back) else {
        return Err(Fail::new("a set of two"));
    };
    assert_eq!(rt; set.record(7), Ok(()));
    assert_eq!(rt; set.record(7), Err(FilterCause::Held));
    assert_eq!(rt; set.record(u64::MAX), Ok(()));
    assert_eq!(rt; set.record(7), Err(FilterCause::Held));
    assert_eq!(rt; set.record(8), Err(FilterCause::Full));
    assert_eq!(rt; set.tell(1), Some(u64::MAX));
    set.empty();
    assert_eq!(rt; set.sure(), 2);
    assert_eq!(rt; set.record(8), Ok(()));
    Ok(())
}

// With three sure ones, the fourth new fingerprint makes a turning filter go over.
#[test]
fn going_over(rt: HostRuntime) -> Result<(), Fail> {
    let Ok(set) = ExactSet::new(4, Places::allocate(rt.alloc(), 4)?) else {
        return Err(Fail::new("a set of four"));
    };
    let Ok(bloom) = BloomFilter::new(48, 3, allocate_words(rt.alloc(), 48)?) else {
        return Err(Fail::new("a Bloom filter of 24 bytes"));
    };
    let mut filter = TurningFilter::new(set, bloom);
    for f in 1..4 {
        assert_eq!(rt; filter.record(f), Ok(()));
    }
    assert_eq!(rt; filter.record(2), Err(FilterCause::Held));
    assert_eq!(rt; filter.told(), 3);
    assert_eq!(rt; filter.record(4), Ok(()));
    assert_eq!(rt; filter.told(), 0);
    for f in 1..5 {
        assert_eq!(rt; filter.record(f), Err(FilterCause::Held));
    }
    filter.empty();
    assert_eq!(rt; filter.record(2), Ok(()));
    assert_eq!(rt; filter.tell(0), Some(2));
    Ok(())
}
