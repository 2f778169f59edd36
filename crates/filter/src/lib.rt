//! Filters: memories of fingerprints, which are the low halves of the nonces of used tokens.
//!
//! `Filter` and `ListingFilter` say what any of them owes. `ExactSet` keeps what it records as it is, in fixed memory;
//! `TurningFilter` begins as a set and goes over to another filter before the set is full. No call allocates, but
//! `Places::allocate`.
#![tactic(auto)]

ghost use Rattle.std.specs.Prelude.{◌≡◌, ℕ, ◌<◌, Bool, true, false, List, [], length};
ghost use Rattle.filter.specs.Filter.{Meaning, Answer, Records, Emptied};
ghost use Rattle.filter.specs.Lists.{member, distinct, place};
ghost use Rattle.filter.specs.Orders.{Appends, Begins};

mod exact;
mod laws;
mod memory;
mod turning;

use answers::FilterCause;
pub use exact::{ExactSet, HEADS_PER_PLACE, Places};
pub use laws::{
    listing_filters_tell_in_order, sets_answer_by_what_they_recorded,
    the_limits_are_those_of_the_rules, turning_filters_answer_by_what_they_recorded,
    turning_filters_go_over_in_order,
};
pub use memory::filled;
pub use turning::{Form, TurningFilter, equal_forms_are_the_same};

/// A memory of fingerprints. It means which ones it refuses and by which cause, how many further ones are sure (certain to be
/// recorded, if they are new), and its sure count: how many are sure once it is emptied.
pub trait Filter {
    // which it refuses, how many further ones are sure, and its sure count
    ghost meaning: { Self → Meaning };

    // its own full account of a recording, and of an emptying
    ghost records: { Self → ℕ → Answer → Self → Type 0 };

    ghost empties: { Self → Self → Type 0 };

    /// Records a fingerprint: it is refused from then on. Answered with a cause exactly where it is among those refused: 13 where
    /// it is held or may be, 14 where there is no room. Nothing of what the filter means is altered then.
    fn record(&mut self, f: u64) -> Result<(), FilterCause>
        ensures { records self.old f result self.new };

    /// Forgets all: nothing is refused then, and as many are sure as the sure count.
    fn empty(&mut self)
        ensures { empties self.old self.new };

    ghost recorded: { (s s' : Self) (f : ℕ) (r : Answer) → records s f r s' → Records f (meaning s) (meaning s') r };

    ghost emptied: { (s s' : Self) → empties s s' → Emptied (meaning s) (meaning s') };
}

/// A filter that also tells each fingerprint it holds, each once. While some are sure, just these are refused. Its own calls of
/// recording and emptying keep the order: it tells in that of first recording since it was emptied. It may go over to another
/// form at a fingerprint that was not sure, and tells none then, by these calls, until it is emptied.
pub trait ListingFilter: Filter {
    ghost listed: { Self → List ℕ };

    // whether it lists: not once it has gone over to another form, until it is emptied
    ghost lists: { Self → Bool };

    // its own full account of a recording in order, and of an emptying
    ghost records_listed: { Self → ℕ → Answer → Self → Type 0 };

    ghost empties_listed: { Self → Self → Type 0 };

    /// Records as `record` does, and tells an accepted fingerprint behind the others, or none from then on. A refused one moves
    /// nothing in the list.
    fn record_listed(&mut self, f: u64) -> Result<(), FilterCause>
        ensures { records_listed self.old f result self.new };

    /// Empties as `empty` does, and the order begins anew.
    fn empty_listed(&mut self)
        ensures { empties_listed self.old self.new };

    /// How many further ones are sure.
    fn sure(&self) -> usize
        ensures { result ≡ (Self.Filter.meaning self.now).sure };

    /// How many it tells.
    fn told(&self) -> usize
        ensures { result ≡ length (listed self.now) };

    /// The one at place i, from 0; none where it tells no more than i.
    fn tell(&self, i: usize) -> Option<u64>
        ensures { result ≡ place (listed self.now) i };

    /// Whether f is among those that it tells. As it stands here it looks at each of them.
    fn holds(&self, f: u64) -> bool
        ensures { result ≡ member f (listed self.now) }
    {
        (0..self.told()).any(|i| self.tell(i) == Some(f))
    }

    // what `record` and `empty` do
    ghost recorded_listed: { (s s' : Self) (f : ℕ) (r : Answer) → records_listed s f r s' → Self.Filter.records s f r s' };

    ghost emptied_listed: { (s s' : Self) → empties_listed s s' → Self.Filter.empties s s' };

    // and the order
    ghost appends: { (s s' : Self) (f : ℕ) (r : Answer) → records_listed s f r s' → Appends Self.Filter.meaning lists listed s f r s' };

    ghost begins: { (s s' : Self) → empties_listed s s' → Begins lists listed s' };

    ghost gone: { (s : Self) → lists s ≡ false → listed s ≡ [] };

    ghost once: { (s : Self) → distinct (listed s) ≡ true };

    // while some are sure, just these are refused
    ghost just: { (s : Self) → 0 < (Self.Filter.meaning s).sure → (f : ℕ) → (Self.Filter.meaning s).refuses f ≡ member f (listed s) };
}
