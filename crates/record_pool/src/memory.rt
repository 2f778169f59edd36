// Chains in the lent records. A place without a record is never read or written. Functions of the records, not methods of
// the pool: a call of a method takes the pool whole, while its free chain is being changed.
ghost use Rattle.std.specs.Prelude.{◌≡◌, ◌+◌, ◌^◌, ◌<◌, List, [], ◌∷◌, length, is_some, MatchOption, Some as is_item, None as is_none, replicate, slice_index, slice_set};
ghost use Rattle.record_pool.specs.declared.chain.Chain.{Chain};
ghost use Rattle.record_pool.specs.Chains.{follow, along, down, Shared, Detached, Joined};
ghost use Rattle.record_pool.specs.Pools.{Outside, links, slots, item_at, some_at, all_at};

use crate::chain::Chain;
use crate::record::Record;

// The index of the record at a place. Writes go by it too: after one through the reference that `get_mut` lends, no element
// is known. The bound by `filter` and a closure made each step along a chain half as dear again.
pub(crate) fn index_of(len: usize, place: u32) -> Option<usize>
    ensures { MatchOption result (Outside len place) (λ i. (i + 1 ≡ place) × (i < len)) }
{
    let index = (place as usize).checked_sub(1)?;
    (index < len).then_some(index)
}

// The place that a record links to, or 0 where there is no record.
pub(crate) fn next_of<T: Copy>(records: &[Record<T>], place: u32) -> u32
    ensures { result ≡ slice_index (links records.now) place }
{
    index_of(records.len(), place).map_or(0, |i| records[i].next)
}

// The item of a record.
pub(crate) fn item_of<T: Copy>(records: &[Record<T>], place: u32) -> Option<T>
    ensures { result ≡ item_at records.now place }
{
    index_of(records.len(), place).map(|i| records[i].item)
}

// Has a record link to another place.
pub(crate) fn link<T: Copy>(records: &mut [Record<T>], place: u32, to: u32)
    ensures links { 0 < place → links records.new ≡ slice_set (links records.old) place to }
    ensures slots { slots records.new ≡ slots records.old }
{
    let Some(i) = index_of(records.len(), place) else {
        return;
    };
    records[i].next = to;
}

// Writes the item of a record, and answers whether there is such a record.
pub(crate) fn put<T: Copy>(records: &mut [Record<T>], place: u32, item: T) -> bool
    ensures answer { result ≡ is_some (item_at records.old place) }
    ensures links { links records.new ≡ links records.old }
    ensures slots { slots records.new ≡ some_at (slots records.old) place item }
{
    let Some(i) = index_of(records.len(), place) else {
        return false;
    };
    records[i].item = item;
    true
}

// Writes one item into each record along a chain.
pub(crate) fn put_along<T: Copy>(records: &mut [Record<T>], chain: Chain, item: T)
    ensures links { links records.new ≡ links records.old }
    ensures slots { slots records.new ≡ all_at (slots records.old) (along (links records.old) chain) item }
{
    let mut place = chain.first;
    for _ in 0..chain.count {
        put(records, place, item);
        place = next_of(records, place);
    }
}

// Where so many links lead from the first of a chain.
pub(crate) fn place_of<T: Copy>(records: &[Record<T>], chain: Chain, count: u32) -> u32
    ensures { result ≡ follow count (links records.now) chain.first }
{
    (0..count).fold(chain.first, |place, _| next_of(records, place))
}

// A chain without one of its records, and that record as a chain of its own.
#[derive(Clone, Copy)]
pub(crate) struct Parts {
    pub(crate) rest: Chain,
    pub(crate) one: Chain,
}

// Takes record k out of a chain.
pub(crate) fn detach<T: Copy>(records: &mut [Record<T>], chain: Chain, k: u32) -> Parts
    requires { k < chain.count }
    ensures first { result.one.first ≡ follow k (links records.old) chain.first }
    ensures slots { slots records.new ≡ slots records.old }
    ensures chains { (others : List Chain) → Shared (length records.old) (links records.old) (chain ∷ others) → Detached (length records.old) (links records.old) (links records.new) chain k result.rest result.one others }
{
    if k == 0 {
        let next = next_of(records, chain.first);
        link(records, chain.first, 0);
        return Parts {
            rest: Chain {
                first: next,
                count: chain.count - 1,
            },
            one: Chain { count: 1, ..chain },
        };
    }
    let before = place_of(records, chain, k - 1);
    let place = next_of(records, before);
    let after = next_of(records, place);
    link(records, before, after);
    link(records, place, 0);
    Parts {
        rest: Chain {
            count: chain.count - 1,
            ..chain
        },
        one: Chain {
            first: place,
            count: 1,
        },
    }
}

// The records of one chain, then those of another, as one chain.
pub(crate) fn join<T: Copy>(records: &mut [Record<T>], front: Chain, back: Chain) -> Chain
    ensures slots { slots records.new ≡ slots records.old }
    ensures chains { (others : List Chain) → length records.old < 2 ^ 32 → Shared (length records.old) (links records.old) (front ∷ back ∷ others) → Joined (length records.old) (links records.old) (links records.new) front back result others }
{
    if front.count == 0 {
        return back;
    }
    let last = place_of(records, front, front.count - 1);
    link(records, last, back.first);
    Chain {
        first: front.first,
        count: front.count.saturating_add(back.count),
    }
}

// All records in one chain, from the last to the first, each with the same item.
pub(crate) fn chain_all<T: Copy>(records: &mut [Record<T>], item: T) -> Chain
    requires { length records.old < 2 ^ 32 }
    ensures slots { slots records.new ≡ is_none ∷ replicate (length records.old) (is_item item) }
    ensures count { result.count ≡ length records.old }
    ensures chains { Shared (length records.old) (links records.new) (result ∷ []) }
    ensures order { along (links records.new) result ≡ down (length records.old) }
{
    let count = records.len() as u32;
    for (i, record) in records.iter_mut().enumerate() {
        record.next = i as u32;
        record.item = item;
    }
    Chain {
        first: count,
        count,
    }
}
