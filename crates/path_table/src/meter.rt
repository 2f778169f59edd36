ghost use Rattle.std.specs.Prelude.{◌≡◌, nat_lt};
ghost use Rattle.path_table.specs.Meters.{Sound, fresh, validated, received, allows, granted, spent};

use answers::Refusal;

/// So many times the bytes counted may be sent to an address that is not validated.
pub const AMPLIFICATION_FACTOR: u64 = 3;

/// Bytes received on a path are counted up to here.
pub const MAX_COUNTED_BYTES: u64 = 1 << 40;

/// The most bytes of one grant.
pub const MAX_GRANTED_BYTES: u32 = 65_535;

/// The most grants that may be open on one path.
pub const MAX_OPEN_GRANTS: u32 = 1_000;

/// What an open path has counted: bytes received and sent, and what is owed, its open grants and their bytes.
#[derive(Clone, Copy)]
pub struct Meter {
    validated: bool,
    counted: u64,
    sent: u64,
    grants: u32,
    owed: u64,
}

impl Meter {
    pub(crate) fn fresh(validated: bool) -> Meter
        ensures { result ≡ fresh validated }
    {
        Meter {
            validated,
            counted: 0,
            sent: 0,
            grants: 0,
            owed: 0,
        }
    }

    pub(crate) fn validate(self) -> Meter
        ensures { result ≡ validated self }
    {
        Meter {
            validated: true,
            ..self
        }
    }

    pub(crate) fn receive(self, bytes: u64) -> Meter
        ensures { result ≡ received bytes self }
    {
        if self.validated {
            return self;
        }
        Meter {
            counted: self.counted.saturating_add(bytes).min(MAX_COUNTED_BYTES),
            ..self
        }
    }

    // Whether so many bytes more may be granted.
    fn allows(self, bytes: u32) -> bool
        requires { Sound self }
        ensures { result ≡ allows bytes self }
    {
        self.validated
            || self.sent + self.owed + bytes as u64 <= AMPLIFICATION_FACTOR * self.counted
    }

    pub(crate) fn grant(self, bytes: u32) -> Result<Meter, Refusal>
        requires { Sound self }
        ensures { result ≡ granted bytes self }
    {
        if bytes > MAX_GRANTED_BYTES || self.grants >= MAX_OPEN_GRANTS || !self.allows(bytes) {
            return Err(Refusal::BeyondAllowance);
        }
        Ok(Meter {
            grants: self.grants + 1,
            owed: self.owed.saturating_add(bytes as u64),
            ..self
        })
    }

    pub(crate) fn spend(self, bytes: u32, sent: u32) -> Result<Meter, Refusal>
        requires { Sound self }
        ensures { result ≡ spent bytes sent self }
    {
        if self.grants == 0 || bytes as u64 > self.owed {
            return Err(Refusal::NoPath);
        }
        if sent > bytes {
            return Err(Refusal::BeyondAllowance);
        }
        Ok(Meter {
            sent: if self.validated {
                self.sent
            } else {
                self.sent + sent as u64
            },
            grants: self.grants - 1,
            owed: self.owed - bytes as u64,
            ..self
        })
    }

    // Whether grants are open.
    pub(crate) fn owes(self) -> bool
        ensures { result ≡ nat_lt 0 self.grants }
    {
        self.grants > 0
    }
}
