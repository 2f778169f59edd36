//! The unit's side: it issues tokens and meets arrivals.
use answers::Refused;
use anyhow::anyhow;
use ccm::CcmScheme;
use gate::{Arrived, Gate, Slip, Verdict};
use sealing::{MAX_TOKEN_LEN, Nonce, WORKING_LEN};
use std::alloc::Global;
use token_log::{BloomTokenLog, Lifetime, LogMemory};
use wire::{IpAddr, SocketAddr};

/// A second, in the nanoseconds that clock readings count.
pub(crate) const SECOND: u64 = 1_000_000_000;

/// The least byte budget of a log whose sets are sure of three tokens, and three positions for each fingerprint.
const BUDGET: u32 = 48;

const HASHES: u32 = 3;

/// Where the cab is, and the id that its first packets go to.
const CAB: IpAddr = IpAddr::V4([192, 0, 2, 7]);

const DESTINATION: [u8; 4] = [0xc0, 0xff, 0xee, 0x01];

/// A unit with its gate. A host draws 128 random bits for each nonce: this one counts, so that it prints the same each time.
#[derive(Drop)]
pub(crate) struct Unit {
    gate: Gate<CcmScheme, BloomTokenLog>,
    alloc: Global,
    drawn: u64,
}

/// The first bytes of a buffer, as a value of their own.
fn copied(alloc: Global, bytes: &[u8]) -> anyhow::Result<Vec<u8>> {
    let mut copy = Vec::new(alloc);
    copy.extend_from_slice(bytes)?;
    Ok(copy)
}

impl Unit {
    pub(crate) fn new(alloc: Global, lifetime: u64) -> anyhow::Result<Unit> {
        let memory = LogMemory::allocate(alloc, BUDGET)?;
        let Ok(log) = BloomTokenLog::with_hashes(BUDGET, HASHES, memory) else {
            return Err(anyhow!("no log of that budget"));
        };
        let scheme = CcmScheme::new(b"the thirty-two bytes of a secret");
        let retry = Lifetime::from_nanos(15 * SECOND)?;
        let validation = Lifetime::from_nanos(lifetime)?;
        let gate = Gate::new(scheme, log, retry, validation);
        Ok(Unit {
            gate,
            alloc,
            drawn: 0,
        })
    }

    fn nonce(&mut self) -> Nonce {
        self.drawn = self.drawn.wrapping_add(1);
        Nonce::new(self.drawn, 0)
    }

    /// Meets an arrival without a token and sends a retry token, or ignores it where that is refused.
    pub(crate) fn turn_back(
        &mut self,
        rt: &HostRuntime,
        port: u16,
        clock: u64,
    ) -> anyhow::Result<Option<Vec<u8>>> {
        let (mut out, mut working) = ([0; MAX_TOKEN_LEN], [0; WORKING_LEN]);
        let nonce = self.nonce();
        let from = SocketAddr { ip: CAB, port };
        let arrived = self
            .gate
            .arrive(&[], &DESTINATION, from, clock, &mut working);
        let (verdict, slip) = match arrived {
            Ok(Arrived { verdict, slip }) => (verdict, slip),
            Err(_) => return Ok(None),
        };
        let Some(slip) = slip else {
            return Ok(None);
        };
        let written = self.gate.retry(slip, nonce, clock, &mut out, &mut working);
        let len = match written {
            Ok(len) => len,
            Err(
                Refused {
                    refusal: _,
                    back: (slip, _),
                },
            ) => {
                slip.ignore();
                return Ok(None);
            }
        };
        println!(rt;
            "  It brings no token ({}): the unit answers by a retry token of {len} bytes.",
            verdict.number()
        )?;
        Ok(Some(copied(self.alloc, &out[..len])?))
    }

    /// Meets an arrival with a token, and takes the connection if there is one to take.
    pub(crate) fn meet(
        &mut self,
        rt: &HostRuntime,
        token: &[u8],
        port: u16,
        clock: u64,
    ) -> anyhow::Result<()> {
        let mut working = [0; WORKING_LEN];
        let from = SocketAddr { ip: CAB, port };
        let arrived = self
            .gate
            .arrive(token, &DESTINATION, from, clock, &mut working);
        let (verdict, validated) = match arrived {
            Ok(Arrived { verdict, slip }) => (verdict, accepted(slip)),
            Err(refusal) => return Err(anyhow!("{refusal}")),
        };
        tell(rt, token.len(), &verdict, validated)
    }

    /// Gives the cab a token for its next visit.
    pub(crate) fn give(&mut self, rt: &HostRuntime, clock: u64) -> anyhow::Result<Option<Vec<u8>>> {
        let (mut out, mut working) = ([0; MAX_TOKEN_LEN], [0; WORKING_LEN]);
        let nonce = self.nonce();
        let written = self.gate.issue(nonce, CAB, clock, &mut out, &mut working);
        let Ok(len) = written else {
            return Ok(None);
        };
        println!(rt; "  The unit gives the cab a token of {len} bytes.")?;
        Ok(Some(copied(self.alloc, &out[..len])?))
    }
}

/// Accepts the connection of a slip; whether the address is validated.
fn accepted(slip: Option<Slip>) -> bool {
    match slip {
        Some(slip) => slip.accept().validated,
        None => false,
    }
}

fn tell(rt: &HostRuntime, len: usize, verdict: &Verdict, validated: bool) -> anyhow::Result<()> {
    let limit = if validated {
        "streams freely"
    } else {
        "keeps to three times what it receives"
    };
    match verdict {
        Verdict::Validated {
            retry_src_cid: Some(_),
            ..
        } => println!(rt;
            "  The retry token of {len} bytes validates the cab's address: the unit {limit}."
        )?,
        Verdict::Validated {
            retry_src_cid: None,
            ..
        } => println!(rt; "  The token of {len} bytes is honoured: the unit {limit}.")?,
        Verdict::Unvalidated { cause, .. } => {
            println!(rt; "  The token of {len} bytes is not honoured ({cause}): the unit {limit}.")?
        }
        Verdict::Rejected { cause } => {
            println!(rt;
                "  The token of {len} bytes is rejected ({cause}): the connection is closed."
            )?
        }
    }
    Ok(())
}
