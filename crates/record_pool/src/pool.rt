ghost use Rattle.std.specs.Prelude.{◌≡◌, ℕ, ◌+◌, ◌^◌, ◌<◌, ◌≤◌, List, [], ◌∷◌, ◌++◌, map, length, drop, is_some, is_ok, if◌then◌else◌, Some as is_item, None as is_none, IfErr, IfOk, IfSome, MatchOption, nat_eq, nat_lt, replicate, slice_index, slice_index_or, slice_set, take};
ghost use Rattle.answers.specs.declared.Refusal.TheVariants.{Capacity};
ghost use Rattle.record_pool.specs.declared.chain.Chain.{Chain};
ghost use Rattle.record_pool.specs.Chains.{empty_chain, down, without};
ghost use Rattle.record_pool.specs.Items.{items_left};
ghost use Rattle.record_pool.specs.Pools.{some_place, links, slots, item_at, some_at, one_put, blank_at, places, held, items, Blanked, Divided, Becomes, Leaves, Same, nth, to_back};

use crate::chain::Chain;
use crate::items::Items;
use crate::memory::{Parts, chain_all, detach, item_of, join, next_of, place_of, put, put_along};
use crate::record::Record;
use answers::{Refusal, Refused};

// Records in lent memory, the chain of the free ones, and the item that these hold.
#[derive(Drop)]
pub struct Pool<'a, T> {
    records: &'a mut [Record<T>],
    free: Chain,
    blank: T,
}

impl<'a, T: Copy> Pool<'a, T> {
    // A pool of these records, all free, and each with the blank. More than 32 bits can count are refused, and come back.
    pub fn new(
        records: &'a mut [Record<T>],
        blank: T,
    ) -> Result<Pool<'a, T>, Refused<&'a mut [Record<T>]>>
        ensures answer { is_ok result ≡ nat_lt (length records.old) (2 ^ 32) }
        ensures made { IfOk result (λ p. Divided p [] × (places p p.free ≡ down (length records.old)) × (p.free.count ≡ length records.old)) }
        ensures blanked { IfOk result Blanked }
        ensures items { IfOk result (λ p. (slots p.records.now ≡ is_none ∷ replicate (length records.old) (is_item blank)) × (p.blank ≡ blank)) }
        ensures refused { IfErr result (λ e. (e.refusal ≡ Capacity) × (e.back.now ≡ records.old)) }
    {
        if records.len() > u32::MAX as usize {
            return Err(Refused {
                refusal: Refusal::Capacity,
                back: records,
            });
        }
        let free = chain_all(records, blank);
        Ok(Pool {
            records,
            free,
            blank,
        })
    }

    // The records as they stand.
    pub fn records(&self) -> &[Record<T>]
        ensures { result.now ≡ self.now.records.now }
    {
        self.records
    }

    // The records, from which the pool then goes.
    pub fn into_records(self) -> &'a mut [Record<T>]
        ensures { result.now ≡ self.entry.records.now }
    {
        let Pool { records, .. } = self;
        records
    }

    // How many records are free.
    pub fn free_count(&self) -> u32
        ensures { result ≡ self.now.free.count }
    {
        self.free.count
    }

    // The place of record k of a chain, counted from 0.
    pub fn place(&self, chain: Chain, k: u32) -> Option<u32>
        ensures { result ≡ nth (places self.now chain) k }
    {
        (k < chain.count).then(|| place_of(self.records, chain, k))
    }

    // The place that follows a place in its chain.
    pub fn next(&self, place: u32) -> Option<u32>
        ensures answer { result ≡ some_place (slice_index (links self.now.records.now) place) }
        ensures chains { (chain : Chain) (others : List Chain) (k : ℕ) → Divided self.now (chain ∷ others) → nth (places self.now chain) k ≡ is_item place → result ≡ nth (places self.now chain) (k + 1) }
    {
        let next = next_of(self.records, place);
        (next != 0).then_some(next)
    }

    // The item at a place.
    pub fn item(&self, place: u32) -> Option<T>
        ensures { result ≡ item_at self.now.records.now place }
    {
        item_of(self.records, place)
    }

    // The item of record k of a chain, counted from 0.
    pub fn get(&self, chain: Chain, k: u32) -> Option<T>
        ensures answer { result ≡ slice_index_or (held self.now chain) k is_none }
        ensures there { (others : List Chain) → Divided self.now (chain ∷ others) → is_some result ≡ nat_lt k chain.count }
    {
        let place = self.place(chain, k)?;
        self.item(place)
    }

    // The items of a chain, in order.
    pub fn items(&self, chain: Chain) -> Items<'_, T>
        ensures answer { items_left result ≡ items self.now chain }
        ensures few { length (items self.now chain) < 2 ^ 32 }
        ensures chains { (others : List Chain) → Divided self.now (chain ∷ others) → map is_item (items self.now chain) ≡ held self.now chain }
    {
        Items {
            records: self.records,
            left: chain,
        }
    }

    // Writes the item at a place; none where there is no such place.
    pub fn set_item(&mut self, place: u32, item: T) -> Option<()>
        ensures answer { is_some result ≡ is_some (item_at self.old.records.now place) }
        ensures free { self.new.free ≡ self.old.free }
        ensures links { links self.new.records.now ≡ links self.old.records.now }
        ensures leaves { Leaves self.old self.new (some_at (slots self.old.records.now) place item) }
        ensures chains { (chain : Chain) (others : List Chain) (k : ℕ) → Divided self.old (chain ∷ others) → nth (places self.old chain) k ≡ is_item place → Becomes self.old self.new chain others (places self.old chain) (slice_set (held self.old chain) k (is_item item)) (places self.old self.old.free) }
    {
        put(self.records, place, item).then_some(())
    }

    // Takes the first free record for an item, as a chain of its own.
    fn take(&mut self, item: T) -> Option<Chain>
        ensures answer { MatchOption result ((self.old.free.count ≡ 0) × Same self.old self.new) (λ one. (0 < self.old.free.count) × (one.first ≡ self.old.free.first)) }
        ensures leaves { Leaves self.old self.new (one_put self.old item) }
        ensures chains { IfSome result (λ one. (others : List Chain) → Divided self.old others → Becomes self.old self.new one others (self.old.free.first ∷ []) (is_item item ∷ []) (drop 1 (places self.old self.old.free))) }
    {
        if self.free.count == 0 {
            return None;
        }
        let Parts { rest, one } = detach(self.records, self.free, 0);
        put(self.records, one.first, item);
        self.free = rest;
        Some(one)
    }

    // Puts an item into a free record, the new last of the chain, and answers its place.
    pub fn push_back(&mut self, chain: &mut Chain, item: T) -> Option<u32>
        ensures answer { result ≡ (if nat_eq self.old.free.count 0 then is_none else is_item self.old.free.first) }
        ensures refused { self.old.free.count ≡ 0 → Same self.old self.new × (chain.new ≡ chain.old) }
        ensures leaves { Leaves self.old self.new (one_put self.old item) }
        ensures chains { (others : List Chain) → 0 < self.old.free.count → Divided self.old (chain.old ∷ others) → Becomes self.old self.new chain.new others (places self.old chain.old ++ self.old.free.first ∷ []) (held self.old chain.old ++ is_item item ∷ []) (drop 1 (places self.old self.old.free)) }
    {
        let one = self.take(item)?;
        *chain = join(self.records, *chain, one);
        Some(one.first)
    }

    // Puts an item into a free record, the new first of the chain, and answers its place.
    pub fn push_front(&mut self, chain: &mut Chain, item: T) -> Option<u32>
        ensures answer { result ≡ (if nat_eq self.old.free.count 0 then is_none else is_item self.old.free.first) }
        ensures refused { self.old.free.count ≡ 0 → Same self.old self.new × (chain.new ≡ chain.old) }
        ensures leaves { Leaves self.old self.new (one_put self.old item) }
        ensures chains { (others : List Chain) → 0 < self.old.free.count → Divided self.old (chain.old ∷ others) → Becomes self.old self.new chain.new others (self.old.free.first ∷ places self.old chain.old) (is_item item ∷ held self.old chain.old) (drop 1 (places self.old self.old.free)) }
    {
        let one = self.take(item)?;
        *chain = join(self.records, one, *chain);
        Some(one.first)
    }

    // Takes record k out of a chain and frees it, blank; answers its item.
    pub fn remove(&mut self, chain: &mut Chain, k: u32) -> Option<T>
        ensures answer { result ≡ slice_index_or (held self.old chain.old) k is_none }
        ensures refused { result ≡ is_none → Same self.old self.new × (chain.new ≡ chain.old) }
        ensures leaves { Leaves self.old self.new (blank_at self.old (take 1 (drop k (places self.old chain.old)))) }
        ensures chains { (others : List Chain) → k < chain.old.count → Divided self.old (chain.old ∷ others) → Becomes self.old self.new chain.new others (without k (places self.old chain.old)) (without k (held self.old chain.old)) (slice_index (places self.old chain.old) k ∷ places self.old self.old.free) }
    {
        let from = *chain;
        let item = self.get(from, k)?;
        let Parts { rest, one } = detach(self.records, from, k);
        put(self.records, one.first, self.blank);
        self.free = join(self.records, one, self.free);
        *chain = rest;
        Some(item)
    }

    // Takes the first record out of a chain and frees it, blank; answers its item.
    pub fn pop_front(&mut self, chain: &mut Chain) -> Option<T>
        ensures answer { result ≡ slice_index_or (held self.old chain.old) 0 is_none }
        ensures refused { result ≡ is_none → Same self.old self.new × (chain.new ≡ chain.old) }
        ensures leaves { Leaves self.old self.new (blank_at self.old (take 1 (places self.old chain.old))) }
        ensures chains { (others : List Chain) → 0 < chain.old.count → Divided self.old (chain.old ∷ others) → Becomes self.old self.new chain.new others (drop 1 (places self.old chain.old)) (drop 1 (held self.old chain.old)) (slice_index (places self.old chain.old) 0 ∷ places self.old self.old.free) }
    {
        self.remove(chain, 0)
    }

    // Makes record k of a chain its last; none where there is no such record.
    pub fn move_to_back(&mut self, chain: &mut Chain, k: u32) -> Option<()>
        ensures answer { is_some result ≡ nat_lt k chain.old.count }
        ensures refused { chain.old.count ≤ k → Same self.old self.new × (chain.new ≡ chain.old) }
        ensures leaves { Leaves self.old self.new (slots self.old.records.now) }
        ensures chains { (others : List Chain) → k < chain.old.count → Divided self.old (chain.old ∷ others) → Becomes self.old self.new chain.new others (to_back k (places self.old chain.old)) (to_back k (held self.old chain.old)) (places self.old self.old.free) }
    {
        if k >= chain.count {
            return None;
        }
        let Parts { rest, one } = detach(self.records, *chain, k);
        *chain = join(self.records, rest, one);
        Some(())
    }

    // Frees all records of a chain, blank; it is then empty.
    pub fn release(&mut self, chain: &mut Chain)
        ensures empty { chain.new ≡ empty_chain }
        ensures leaves { Leaves self.old self.new (blank_at self.old (places self.old chain.old)) }
        ensures chains { (others : List Chain) → Divided self.old (chain.old ∷ others) → Becomes self.old self.new chain.new others [] [] (places self.old chain.old ++ places self.old self.old.free) }
    {
        put_along(self.records, *chain, self.blank);
        self.free = join(self.records, *chain, self.free);
        *chain = Chain::new();
    }
}
