ghost use Rattle.answers.specs.Sameness.{TellsSameness, ClonesAreTheSame, ClonesNeverFail};
ghost use Rattle.std.specs.Prelude.{◌≡◌, Some, Ok};
ghost use Rattle.gate.specs.Calls.{verdict_number, verdict_cause, owed};
ghost use Rattle.gate.specs.Laws.{honours};

use crate::slip::{AddressValidation, Slip};
use answers::Cause;
use wire::{ConnectionId, SocketAddr};

/// What becomes of an arrival (RFC 9000, section 8.1). The original id is the destination id of the client's first
/// packet.
#[derive(Clone, Copy, PartialEq, Eq, Debug)]
pub enum Verdict {
    // the address is the client's, so that the limit of three times what was received is lifted: by a retry token
    // (section 8.1.2), with the id that the Retry packet was sent from, or by a validation token
    // (section 8.1.3), which is thereby honoured
    Validated {
        retry_src_cid: Option<ConnectionId>,
        orig_dst_cid: ConnectionId,
    },
    // the arrival goes on as if it had brought no token (section 8.1.3): the host sends a Retry packet, or goes on
    // within that limit
    Unvalidated {
        cause: Cause,
        orig_dst_cid: ConnectionId,
    },
    // by a retry token: as the client takes no second Retry packet, the host closes the connection at once, with
    // the error INVALID_TOKEN (section 8.1.2)
    Rejected {
        cause: Cause,
    },
}

/// A verdict, and the slip of an arrival that is not rejected.
pub struct Arrived {
    pub verdict: Verdict,
    pub slip: Option<Slip>,
}

// What an arrival alone decides: its verdict, or to ask the log about a low half and an issue time. In a `Result` a
// validated arrival would be an `Err`.
#[derive(Clone, Copy)]
pub(crate) enum Weighed {
    Settled(Verdict),
    Asks { low: u64, issued: u32 },
}

/// Two verdicts are equal just if they are the same, and a clone of one is the same.
pub fn equal_verdicts_are_the_same()
    ensures equal { TellsSameness (⟦<Verdict as PartialEq>⟧.eq) }
    ensures cloned { ClonesAreTheSame (⟦<Verdict as Clone>⟧.is_clone) }
    ensures come { ClonesNeverFail (⟦<Verdict as Clone>⟧.is_infallible) }
{
    wire::equal_values_are_the_same();
    answers::equal_answers_are_the_same();
}

impl Weighed {
    // The destination id is the original one.
    pub(crate) fn unvalidated(cause: Cause, destination: ConnectionId) -> Weighed
        ensures { result ≡ Weighed.Settled (Verdict.Unvalidated cause destination) }
    {
        Weighed::Settled(Verdict::Unvalidated {
            cause,
            orig_dst_cid: destination,
        })
    }

    pub(crate) fn rejected(cause: Cause) -> Weighed
        ensures { result ≡ Weighed.Settled (Verdict.Rejected cause) }
    {
        Weighed::Settled(Verdict::Rejected { cause })
    }

    // The destination id is the one that the Retry packet was sent from.
    pub(crate) fn retried(destination: ConnectionId, orig_dst_cid: ConnectionId) -> Weighed
        ensures { result ≡ Weighed.Settled (Verdict.Validated (Some destination) orig_dst_cid) }
    {
        Weighed::Settled(Verdict::Validated {
            retry_src_cid: Some(destination),
            orig_dst_cid,
        })
    }
}

impl Verdict {
    /// Why the address is not validated; none where it is.
    pub fn cause(self) -> Option<Cause>
        ensures { result ≡ verdict_cause self }
    {
        match self {
            Verdict::Validated { .. } => None,
            Verdict::Unvalidated { cause, .. } => Some(cause),
            Verdict::Rejected { cause } => Some(cause),
        }
    }

    /// Whether the arrival's token is honoured: it validates the address, and is no retry token.
    pub fn is_honoured(self) -> bool
        ensures { result ≡ honours (Ok self) }
    {
        match self {
            Verdict::Validated { retry_src_cid, .. } => retry_src_cid.is_none(),
            Verdict::Unvalidated { .. } => false,
            Verdict::Rejected { .. } => false,
        }
    }

    /// The number of its cause; 0 if validated.
    pub fn number(self) -> u8
        ensures { result ≡ verdict_number self }
    {
        match self {
            Verdict::Validated { .. } => 0,
            Verdict::Unvalidated { cause, .. } => cause.number(),
            Verdict::Rejected { cause } => cause.number(),
        }
    }

    // The slip of an arrival with this verdict.
    pub(crate) fn slip(&self, address: SocketAddr, destination: ConnectionId) -> Option<Slip>
        ensures { result ≡ owed address destination self.now }
    {
        let validation = match self {
            Verdict::Validated {
                retry_src_cid: Some(_),
                ..
            } => AddressValidation::ByRetry,
            Verdict::Validated {
                retry_src_cid: None,
                ..
            } => AddressValidation::ByToken,
            Verdict::Unvalidated { .. } => AddressValidation::Missing,
            Verdict::Rejected { .. } => return None,
        };
        Some(Slip {
            address,
            destination,
            validation,
        })
    }
}
