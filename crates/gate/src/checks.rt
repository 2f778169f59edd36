ghost use Rattle.std.specs.Prelude.{◌≡◌, ◌≤◌, OnOk};
ghost use Rattle.gate.specs.Calls.{dated, admitted, in_date};

use answers::Refusal;
use sealing::{MAX_TOKEN_LEN, WORKING_LEN};
use token_log::{Lifetime, NANOS_PER_SECOND};
use wire::ConnectionId;

/// The last clock reading whose second fits the 32 bits of a token, in nanoseconds since 1970. A later one is refused by 3.
pub const LAST_CLOCK: u64 = 4_294_967_295_999_999_999;

/// The limits of a gate's calls are those of the rules.
pub fn the_limits_are_those_of_the_rules()
    ensures clock { LAST_CLOCK ≡ 4294967295999999999 }
    ensures room { MAX_TOKEN_LEN ≡ 81 }
    ensures working { WORKING_LEN ≡ 96 }
{}

// The second that a token is dated by, by the lengths of the buffer and the working bytes, and the clock.
pub(crate) fn date(room: usize, working: usize, clock: u64) -> Result<u32, Refusal>
    ensures value { result ≡ dated room working clock }
    ensures enough { OnOk result ((MAX_TOKEN_LEN ≤ room) × (WORKING_LEN ≤ working)) }
{
    if room < MAX_TOKEN_LEN || working < WORKING_LEN {
        return Err(Refusal::SmallBuffer);
    }
    if clock > LAST_CLOCK {
        return Err(Refusal::LateClock);
    }
    Ok((clock / NANOS_PER_SECOND) as u32)
}

// The destination id of an arrival that is not refused.
pub(crate) fn admit(working: usize, destination: &[u8], clock: u64) -> Result<ConnectionId, Refusal>
    ensures id { result ≡ admitted working destination.now clock }
    ensures enough { OnOk result (WORKING_LEN ≤ working) }
{
    if working < WORKING_LEN {
        return Err(Refusal::SmallBuffer);
    }
    let id = ConnectionId::new(destination)?;
    if clock > LAST_CLOCK {
        return Err(Refusal::LateClock);
    }
    Ok(id)
}

// Whether a token of that second is in date: until its expiry, inclusive.
pub(crate) fn in_date(issued: u32, lifetime: Lifetime, clock: u64) -> bool
    ensures { result ≡ in_date lifetime issued clock }
{
    clock <= lifetime.expiry(issued)
}
