//! Logs of used tokens: which pairs of low nonce half and issue time were accepted before.
//!
//! `TokenLog` says what any log owes. `TwoGenerationLog` forgets by periods of one lifetime, over two filters; `BloomTokenLog` is
//! the one that a byte budget gives; `NoneTokenLog` bars everything. Issue times are whole seconds since 1970, lifetimes and the
//! period start are nanoseconds. No call allocates, but `GenerationMemory::allocate` and `LogMemory::allocate`.
#![tactic(auto)]

ghost use Rattle.std.specs.Prelude.{◌≡◌, true, is_ok, Err};
ghost use Rattle.answers.specs.declared.LogCause.TheVariants.{Held as is_held};
ghost use Rattle.token_log.specs.Log.{Bars, Query, Answer, Answered};
ghost use Rattle.token_log.specs.Generations.{Logs};
ghost use Rattle.token_log.specs.Laws.{NoPairIsAcceptedTwice, EveryFreshPairIsAccepted, NoFreshPairIsBarred};
ghost use Rattle.std.proofs.Common.{rules};

mod bloom_log;
mod laws;
mod lifetime;
#[cfg(test)]
mod tests;
mod two_generations;

use answers::LogCause;
pub use bloom_log::{
    BloomTokenLog, DEFAULT_BUDGET, DEFAULT_HITS, GenerationMemory, LogMemory,
    a_log_gives_back_enough_for_another, the_limits_are_those_of_the_rules,
};
use filter::Filter;
pub use laws::{
    a_log_answers_as_its_machine, a_log_from_a_budget_answers_as_its_machine,
    a_log_from_a_budget_over_any_memory_answers_as_its_machine,
    a_log_over_bloom_filters_answers_as_its_machine, a_log_over_sets_answers_as_its_machine,
};
pub use lifetime::{Lifetime, MAX_LIFETIME_NANOS, NANOS_PER_SECOND, equal_lifetimes_are_the_same};
pub use two_generations::TwoGenerationLog;

/// A memory of used tokens: of the low half of each one's nonce, and its issue time in seconds since 1970.
pub trait TokenLog {
    // for each lifetime, which pairs it bars
    ghost bars: { Self → Bars };

    // its own full account of one call
    ghost logs: { Self → Query → Answer → Self → Type 0 };

    /// Accepts a pair once: from then on it is barred. `low` is the low half of the token's nonce, `issued` its issue time in
    /// seconds since 1970. Answered with a cause, 11 to 14, exactly where the pair is barred under this lifetime, and then
    /// nothing of what is barred is altered; otherwise nothing that was barred under this lifetime is freed.
    fn check_and_insert(
        &mut self,
        low: u64,
        issued: u32,
        lifetime: Lifetime,
    ) -> Result<(), LogCause>
        ensures { logs self.old (record { low = low; issued = issued; lifetime = lifetime }) result self.new };

    ghost tied: { (s s' : Self) (x : Query) (r : Answer) → logs s x r s' → Answered x (is_ok r) (bars s) (bars s') };
}

/// Bars everything, by cause 13: under it no validation token is honoured.
#[derive(Clone, Copy, Default, Debug)]
pub struct NoneTokenLog;

impl TokenLog for NoneTokenLog {
    ghost bars = { λ _ _ _ _. true };

    ghost logs = { λ s _ r s'. (r ≡ Err is_held) × (s' ≡ s) };

    ghost tied = { Prim.search rules };

    fn check_and_insert(
        &mut self,
        _low: u64,
        _issued: u32,
        _lifetime: Lifetime,
    ) -> Result<(), LogCause> {
        Err(LogCause::Held)
    }
}

/// Of any log, no two accepted calls with one lifetime have equal low half and issue time.
pub fn no_pair_is_accepted_twice<L: TokenLog>(_log: &L)
    ensures { NoPairIsAcceptedTwice L.logs }
{}

/// Of a log of two generations over any filter, unused at first: a call under a lifetime above zero is accepted, and before it its
/// pair is not barred, unless an earlier accepted call has its low half or an issue time past its expiry, or as many as the sure
/// count were accepted.
pub fn every_fresh_pair_is_accepted<F: Filter>(_log: &TwoGenerationLog<F>)
    ensures accepted { EveryFreshPairIsAccepted F.meaning F.records F.empties }
    ensures unbarred { NoFreshPairIsBarred F.meaning F.records F.empties }
{}
