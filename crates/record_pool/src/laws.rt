// Laws of pools. The functions do nothing: what they ensure holds of every pool.
ghost use Rattle.std.specs.Prelude.{◌≡◌, ℕ, ◌+◌, ◌<◌, ◌≤◌, List, ◌∷◌, ◌++◌, map, length, Some as is_item, slice_index};
ghost use Rattle.std.specs.List.{flat_map, sum_by};
ghost use Rattle.answers.specs.Sameness.{ClonesAreTheSame, ClonesNeverFail};
ghost use Rattle.record_pool.specs.declared.chain.Chain.{Chain};
ghost use Rattle.record_pool.specs.Pools.{links, places, item_at, items, nth, Blanked, Divided, HoldsJust, InOne};

use crate::chain::Chain;
use crate::pool::Pool;
use crate::record::Record;

// Each record is in just one of the chains that a pool is divided into, the free one among them, and there once. Where
// the free records are blanked, each of the free chain holds the blank.
pub fn every_record_is_in_one_chain<T: Copy>(pool: &Pool<T>)
    ensures blank { (k p : ℕ) → Blanked pool.now → nth (places pool.now pool.now.free) k ≡ is_item p → item_at pool.now.records.now p ≡ is_item pool.now.blank }
    ensures one { (chains : List Chain) (p : ℕ) → Divided pool.now chains → 0 < p → p ≤ length pool.now.records.now → InOne (map (places pool.now) (pool.now.free ∷ chains)) p }
{}

// The last record of each of these chains links to 0, and where a chain has none, its first place is 0.
pub fn every_chain_ends_in_zero<T: Copy>(pool: &Pool<T>)
    ensures last { (chains front back : List Chain) (chain : Chain) (k : ℕ) → Divided pool.now chains → pool.now.free ∷ chains ≡ front ++ chain ∷ back → k + 1 ≡ chain.count → slice_index (links pool.now.records.now) (slice_index (places pool.now chain) k) ≡ 0 }
    ensures empty { (chains front back : List Chain) (chain : Chain) → Divided pool.now chains → pool.now.free ∷ chains ≡ front ++ chain ∷ back → chain.count ≡ 0 → chain.first ≡ 0 }
{}

// The records have just what these chains hold, each item once, and where the free ones are blanked, the blank besides.
pub fn the_records_hold_what_the_chains_do<T: Copy>(pool: &Pool<T>)
    ensures { (chains : List Chain) → Divided pool.now chains → Blanked pool.now → HoldsJust pool.now.blank (flat_map (items pool.now) chains) (map (λ r. r.item) pool.now.records.now) }
{}

// The chains may be named in any order.
pub fn chains_have_no_order<T: Copy>(pool: &Pool<T>)
    ensures front { (front back : List Chain) (chain : Chain) → Divided pool.now (front ++ chain ∷ back) → Divided pool.now (chain ∷ (front ++ back)) }
    ensures within { (front back : List Chain) (chain : Chain) → Divided pool.now (chain ∷ (front ++ back)) → Divided pool.now (front ++ chain ∷ back) }
{}

// No record is lost: these chains and the free one have as many together as the pool.
pub fn no_record_is_lost<T: Copy>(pool: &Pool<T>)
    ensures { (chains : List Chain) → Divided pool.now chains → sum_by (λ c. c.count) (pool.now.free ∷ chains) ≡ length pool.now.records.now }
{}

// A chain that is empty need not be named any more.
pub fn an_empty_chain_can_go<T: Copy>(pool: &Pool<T>)
    ensures { (chains : List Chain) (chain : Chain) → chain.count ≡ 0 → Divided pool.now (chain ∷ chains) → Divided pool.now chains }
{}

// A clone of a chain is that chain, and one of a record that record, where it is so for its item.
pub fn clones_are_the_same<T: Copy>(record: &Record<T>)
    ensures chains { ClonesAreTheSame (⟦<Chain as Clone>⟧.is_clone) }
    ensures chains_come { ClonesNeverFail (⟦<Chain as Clone>⟧.is_infallible) }
    ensures records { ClonesAreTheSame (T.Clone.is_clone) → ClonesAreTheSame (⟦<Record<T> as Clone>⟧.is_clone) }
{}
