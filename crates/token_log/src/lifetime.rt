ghost use Rattle.answers.specs.Sameness.{TellsSameness, ClonesAreTheSame, ClonesNeverFail};
ghost use Rattle.std.specs.Prelude.{◌≡◌, ℕ, ◌≤◌, Ok, Err, if◌then◌else◌, nat_le};
ghost use Rattle.answers.specs.declared.Refusal.TheVariants.{LongLifetime};
ghost use Rattle.token_log.specs.Log.{issue, expiry};
ghost use Rattle.token_log.specs.declared.lifetime.TheConstants.{MAX_LIFETIME_NANOS};

use answers::Refusal;
use std::marker::Model;

/// A second, in nanoseconds.
pub const NANOS_PER_SECOND: u64 = 1_000_000_000;

/// The longest lifetime, in nanoseconds: 1,073,741,824 seconds.
pub const MAX_LIFETIME_NANOS: u64 = 1_073_741_824 * NANOS_PER_SECOND;

// A second since 1970, in nanoseconds.
pub(crate) fn issue_time(issued: u32) -> u64
    ensures { result ≡ issue issued }
{
    u64::from(issued) * NANOS_PER_SECOND
}

/// How long a token is good for, in whole nanoseconds: at most `MAX_LIFETIME_NANOS`. Zero is a lifetime, under which a log of two
/// generations accepts nothing.
#[derive(Clone, Copy, PartialEq, Eq, Debug)]
pub struct Lifetime {
    nanos: u64,
}

// In clauses a lifetime is its nanoseconds.
impl Model for Lifetime {
    ghost Value = { ℕ };

    ghost view = { λ l. l.nanos };

    ghost invariant = { λ l. l.nanos ≤ MAX_LIFETIME_NANOS };

    ghost inverse = { λ n. record { nanos = n } };
}

impl Lifetime {
    /// A lifetime of so many nanoseconds. Refused by 4 above `MAX_LIFETIME_NANOS`.
    pub fn from_nanos(nanos: u64) -> Result<Lifetime, Refusal>
        ensures { result ≡ (if nat_le nanos MAX_LIFETIME_NANOS then Ok nanos else Err LongLifetime) }
    {
        if nanos > MAX_LIFETIME_NANOS {
            return Err(Refusal::LongLifetime);
        }
        Ok(Lifetime { nanos })
    }

    /// When a token that is dated by this second expires, in nanoseconds since 1970: it is in date until then, inclusive.
    pub fn expiry(self, issued: u32) -> u64
        ensures { result ≡ expiry self issued }
    {
        issue_time(issued) + self.nanos
    }

    /// How many nanoseconds it has, at most `MAX_LIFETIME_NANOS`.
    pub fn nanos(self) -> u64
        ensures same { result ≡ self }
        ensures short { result ≤ MAX_LIFETIME_NANOS }
    {
        self.nanos
    }
}

/// Two lifetimes are equal just if they are the same, and a clone of one is the same.
pub fn equal_lifetimes_are_the_same()
    ensures equal { TellsSameness (⟦<Lifetime as PartialEq>⟧.eq) }
    ensures cloned { ClonesAreTheSame (⟦<Lifetime as Clone>⟧.is_clone) }
    ensures come { ClonesNeverFail (⟦<Lifetime as Clone>⟧.is_infallible) }
{}
