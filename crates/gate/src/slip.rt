ghost use Rattle.answers.specs.Sameness.{TellsSameness, ClonesAreTheSame, ClonesNeverFail};
ghost use Rattle.std.specs.Prelude.{◌≡◌, not};
ghost use Rattle.gate.specs.Calls.{is_validated, is_retried};

use wire::{ConnectionId, SocketAddr};

/// How an address was validated.
#[derive(Clone, Copy, PartialEq, Eq, Debug)]
pub enum AddressValidation {
    Missing,
    /// by a token from an earlier connection
    ByToken,
    /// by the token of a Retry packet
    ByRetry,
}

/// An arrival that is owed one answer: accept, refuse, ignore or retry. It can neither be copied nor let go.
pub struct Slip {
    pub(crate) address: SocketAddr,
    pub(crate) destination: ConnectionId,
    pub(crate) validation: AddressValidation,
}

/// A connection to set up. Until its address is validated, the host may send there at most three times what it
/// received.
#[derive(Clone, Copy, Debug, PartialEq, Eq)]
pub struct Accepted {
    pub address: SocketAddr,
    pub validated: bool,
}

impl Slip {
    /// Where the arrival came from.
    pub fn address(&self) -> SocketAddr
        ensures { result ≡ self.now.address }
    {
        self.address
    }

    /// Whether the slip may be spent for a Retry packet: not where a retry token validated the address, as `Gate::retry` then
    /// refuses by 8.
    pub fn may_retry(&self) -> bool
        ensures { result ≡ not (is_retried self.now.validation) }
    {
        self.validation != AddressValidation::ByRetry
    }

    /// Spends the slip for a connection.
    pub fn accept(self) -> Accepted
        ensures { result ≡ record { address = self.address; validated = is_validated self.validation } }
    {
        let Slip {
            address,
            destination: _,
            validation,
        } = self;
        Accepted {
            address,
            validated: validation != AddressValidation::Missing,
        }
    }

    /// Spends the slip for the address where the refusal is to be sent.
    pub fn refuse(self) -> SocketAddr
        ensures { result ≡ self.address }
    {
        let Slip {
            address: peer,
            destination: _,
            validation: _,
        } = self;
        peer
    }

    /// Spends the slip: nothing is sent, and nothing is answered.
    pub fn ignore(self)
        ensures { result ≡ tt }
    {
        let Slip {
            address: _,
            destination: _,
            validation: _,
        } = self;
    }
}

/// Two ways of validation, or two accepted arrivals, are equal just if they are the same, and a clone of one is the same.
pub fn equal_validations_are_the_same()
    ensures equal { TellsSameness (⟦<AddressValidation as PartialEq>⟧.eq) }
    ensures cloned { ClonesAreTheSame (⟦<AddressValidation as Clone>⟧.is_clone) }
    ensures come { ClonesNeverFail (⟦<AddressValidation as Clone>⟧.is_infallible) }
    ensures equal_accepted { TellsSameness (⟦<Accepted as PartialEq>⟧.eq) }
    ensures accepted { ClonesAreTheSame (⟦<Accepted as Clone>⟧.is_clone) }
    ensures accepted_come { ClonesNeverFail (⟦<Accepted as Clone>⟧.is_infallible) }
{}
