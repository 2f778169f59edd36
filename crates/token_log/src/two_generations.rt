ghost use Rattle.std.specs.Prelude.{◌≡◌, ℕ};
ghost use Rattle.token_log.specs.Generations.{barred, Logs, Begun, Unused};
ghost use Rattle.token_log.specs.LogLaws.{tied_by};

use crate::lifetime::issue_time;
use crate::{Lifetime, TokenLog};
use answers::LogCause;
use filter::Filter;

/// A log that forgets by periods of one lifetime, over two filters. Generation one has the tokens that expire in the period
/// from `period_start` on, in nanoseconds since 1970, and generation two those of the period after.
///
/// A call is answered by cause 11 under lifetime zero, by 12 for a token that expired before the period start, and else by the
/// cause of the generation that records, 13 or 14. Under one lifetime, an expiry in a later period makes that the current one,
/// and what is older is forgotten.
#[derive(Drop)]
pub struct TwoGenerationLog<F> {
    pub(crate) period_start: u64,
    pub(crate) one: F,
    pub(crate) two: F,
}

impl<F: Filter> TwoGenerationLog<F> {
    /// An unused log over two filters of one sure count, which are emptied. Its period starts at 0. (That the sure counts are
    /// equal is not tested.)
    pub fn new(mut one: F, mut two: F) -> TwoGenerationLog<F>
        ensures begun { Begun F.empties one two result }
        ensures unused { (c : ℕ) → (F.meaning one).count ≡ c → (F.meaning two).count ≡ c → Unused F.meaning c result }
    {
        one.empty();
        two.empty();
        TwoGenerationLog {
            period_start: 0,
            one,
            two,
        }
    }

    /// Takes the log apart: its two filters come back as they stand, generation one first.
    pub fn into_generations(self) -> (F, F)
        ensures { result ≡ (self.one, self.two) }
    {
        let TwoGenerationLog { one, two, .. } = self;
        (one, two)
    }
}

impl<F: Filter> TokenLog for TwoGenerationLog<F> {
    ghost bars = { barred F.meaning };

    ghost logs = { Logs F.records F.empties };

    ghost tied = { tied_by F.meaning F.records F.empties F.recorded F.emptied };

    fn check_and_insert(
        &mut self,
        low: u64,
        issued: u32,
        lifetime: Lifetime,
    ) -> Result<(), LogCause> {
        let period = lifetime.nanos();
        if period == 0 {
            return Err(LogCause::ZeroLifetime);
        }
        let expiry = lifetime.expiry(issued);
        if expiry < self.period_start {
            return Err(LogCause::BeforePeriod);
        }
        // By comparing: a division of 64 bits took longer than all the rest of a refused call.
        match expiry - self.period_start {
            since if since < period => return Ok(self.one.record(low)?),
            since if since < 2 * period => return Ok(self.two.record(low)?),
            since if since < 3 * period => {
                std::mem::swap(&mut self.one, &mut self.two);
                self.period_start += period;
            }
            _ => {
                self.one.empty();
                self.period_start = issue_time(issued);
            }
        }
        self.two.empty();
        Ok(self.two.record(low)?)
    }
}
