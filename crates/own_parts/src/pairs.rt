ghost use Rattle.std.specs.Prelude.{◌≡◌, []};
ghost use Rattle.own_parts.specs.Pairs.{pairs_bar, PairsLog};
ghost use Rattle.own_parts.specs.PairLaws.{pairs_tied};

use answers::LogCause;
use token_log::{Lifetime, TokenLog};

/// A low half of a nonce, and an issue time in seconds.
#[derive(Clone, Copy, PartialEq, Eq, Debug)]
pub struct Pair {
    pub low: u64,
    pub issued: u32,
}

/// A log that keeps each pair it accepted, whatever the lifetime, and forgets none: one day it is full, and bars all.
#[derive(Drop)]
pub struct PairLog {
    pairs: Vec<Pair>,
}

impl PairLog {
    /// A log without a pair, with as many places as the `Vec` has capacity.
    pub fn new(mut pairs: Vec<Pair>) -> PairLog
        ensures { result.pairs.items ≡ [] }
    {
        pairs.clear();
        PairLog { pairs }
    }
}

impl TokenLog for PairLog {
    ghost bars = { pairs_bar };

    ghost logs = { PairsLog };

    ghost tied = { pairs_tied };

    fn check_and_insert(
        &mut self,
        low: u64,
        issued: u32,
        _lifetime: Lifetime,
    ) -> Result<(), LogCause> {
        let pair = Pair { low, issued };
        if self.pairs.contains(&pair) {
            return Err(LogCause::Held);
        }
        if self.pairs.len() == self.pairs.capacity() {
            return Err(LogCause::Full);
        }
        self.pairs.push_reserved(pair);
        Ok(())
    }
}
