ghost use Rattle.std.specs.Prelude.{◌≡◌, ℕ, ◌+◌, ◌*◌, ◌^◌, ◌<◌, ◌≤◌, true, ◌&&◌, List, [], ◌∷◌, ◌++◌, length, is_ok, IfOk, if◌then◌else◌, vec_len, vec_capacity, MatchResult, nat_le, nat_lt};
ghost use Rattle.answers.specs.declared.Refusal.TheVariants.{Capacity};
ghost use Rattle.filter.specs.Memory.{room_of, Buckets};
ghost use Rattle.filter.specs.declared.exact.TheConstants.{HEADS_PER_PLACE};
ghost use Rattle.filter.specs.Lists.{member, distinct};
ghost use Rattle.filter.specs.Indexed.{bucket as bucket_of, Headed, Chained};

mod filtering;

use crate::memory::filled;
use answers::{Refusal, Refused};
use std::alloc::{AllocError, Global};

/// How many bucket heads a place of a set takes.
pub const HEADS_PER_PLACE: u32 = 4;

/// Memory for a set, by its capacities: each place takes one element of `held`, one of `links` and four of `heads`, so 28
/// bytes. What stands in it is of no account.
#[derive(Drop)]
pub struct Places {
    pub held: Vec<u64>,
    pub links: Vec<u32>,
    pub heads: Vec<u32>,
}

/// A set of at most `capacity` fingerprints, in the order of recording. Its sure count is its capacity, which is at least 1.
// An index leads to them: the head of a bucket is its last place, and each place links to the one before it in its bucket;
// places count from 1, and 0 ends a chain.
// Memory is fixed: fingerprint and link in one struct would take 16 bytes a place, not 12, and an `Option` in place of
// the 0 twice its 4.
#[derive(Drop)]
pub struct ExactSet {
    held: Vec<u64>,
    links: Vec<u32>,
    heads: Vec<u32>,
    capacity: u32,
    ghost some: { 0 < capacity },
    ghost within: { vec_len held ≤ capacity },
    ghost room: { capacity ≤ vec_capacity held },
    ghost apart: { distinct held.items ≡ true },
    ghost linked: { length links.items ≡ length held.items },
    ghost spare: { capacity ≤ vec_capacity links },
    ghost wide: { capacity * HEADS_PER_PLACE ≤ vec_capacity heads },
    ghost buckets: { 0 < length heads.items },
    ghost headed: { Headed held.items heads.items },
    ghost chained: { Chained held.items heads.items links.items },
}

impl Places {
    /// Memory for a set of `count` places, and no more.
    pub fn allocate(heap: Global, count: u32) -> Result<Places, AllocError>
        ensures enough { IfOk result (λ p. room_of p ≡ count) }
        ensures blank { IfOk result (λ p. (p.held.items ≡ []) × (p.links.items ≡ []) × (p.heads.items ≡ [])) }
        ensures sizes { IfOk result (λ p. (vec_capacity p.held ≡ count) × (vec_capacity p.links ≡ count) × (vec_capacity p.heads ≡ count * HEADS_PER_PLACE)) }
    {
        let held = Vec::with_capacity(heap, count as usize)?;
        let links = Vec::with_capacity(heap, count as usize)?;
        let heads = Vec::with_capacity(heap, count as usize * HEADS_PER_PLACE as usize)?;
        Ok(Places { held, links, heads })
    }

    /// For how many fingerprints there is a place.
    pub fn room(&self) -> usize
        ensures { result ≡ room_of self.now }
    {
        self.held
            .capacity()
            .min(self.links.capacity())
            .min(self.heads.capacity() / HEADS_PER_PLACE as usize)
    }
}

impl ExactSet {
    ghost use Rattle.filter.specs.Sets.{HeldBy};

    /// An empty set of `capacity` places, in memory that has as many or more. Refused by 7 for a capacity of 0, or where the
    /// memory has fewer places; it then comes back as it was.
    pub fn new(capacity: u32, memory: Places) -> Result<ExactSet, Refused<Places>>
        ensures answer { is_ok result ≡ (nat_lt 0 capacity && nat_le capacity (room_of memory)) }
        ensures memory { IfOk result (HeldBy memory) }
        ensures index { IfOk result (λ s. Buckets capacity (vec_len s.heads)) }
        ensures cases { MatchResult result (λ s. (s.held.items ≡ []) × (s.capacity ≡ capacity)) (λ e. e ≡ record { refusal = Capacity; back = memory }) }
    {
        if capacity == 0 || memory.room() < capacity as usize {
            return Err(Refused {
                refusal: Refusal::Capacity,
                back: memory,
            });
        }
        let Places {
            mut held,
            mut links,
            heads,
        } = memory;
        held.clear();
        links.clear();
        let heads = filled(heads, 0, buckets(capacity)).unwrap();
        Ok(ExactSet {
            held,
            links,
            heads,
            capacity,
        })
    }

    /// Takes the set apart. Its memory comes back as it stands, with what the set held in it: a set of as many places can be
    /// made in it again.
    pub fn into_places(self) -> Places
        ensures parts { result ≡ record { held = self.held; links = self.links; heads = self.heads } }
        ensures room { self.capacity ≤ room_of result }
    {
        let ExactSet {
            held,
            links,
            heads,
            ..
        } = self;
        Places { held, links, heads }
    }

    // The bucket of a fingerprint.
    fn bucket(&self, f: u64) -> usize
        ensures value { result ≡ bucket_of (length self.now.heads.items) f }
        ensures bound { result < length self.now.heads.items }
    {
        (f & (self.heads.len() as u64 - 1)) as usize
    }

    // Whether f is held: goes along the chain of its bucket.
    fn find(&self, f: u64) -> bool
        ensures { result ≡ member f self.now.held.items }
    {
        // A walk by links ends as they lead to earlier places only; a chain of `successors` has no measure to say so.
        let mut at = self.heads[self.bucket(f)] as usize;
        while at != 0 {
            if self.held[at - 1] == f {
                return true;
            }
            at = self.links[at - 1] as usize;
        }
        false
    }
}

// How many buckets a set has: the least power of 2 that is at least twice its capacity.
fn buckets(capacity: u32) -> usize
    requires { 0 < capacity }
    ensures { Buckets capacity result }
{
    (capacity as usize * 2).next_power_of_two()
}
