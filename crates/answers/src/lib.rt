#![tactic(auto)]

ghost use Rattle.std.specs.Prelude.{◌≡◌, [], ◌∷◌};
ghost use Rattle.answers.specs.Numbers.{refusal_number, filter_cause_number, log_cause_number, cause_number, log_cause_of, cause_of, NumbersTell};
ghost use Rattle.answers.specs.Sameness.{TellsSameness, ClonesAreTheSame, ClonesNeverFail};
ghost use Rattle.answers.specs.declared.Cause.TheVariants.{Undecodable as is_undecodable};

use thiserror::Error;

/// Why a call was refused, by the number it is known by. A refused call writes nothing and alters nothing.
#[derive(Clone, Copy, PartialEq, Eq, Debug, Error)]
pub enum Refusal {
    /// A buffer is too small, or a content is longer than a scheme takes.
    #[error("refused 1: a buffer is too small, or a content too long")]
    SmallBuffer = 1,
    /// A connection id of more than 20 bytes.
    #[error("refused 2: a connection id of more than 20 bytes")]
    LongConnectionId = 2,
    /// A clock reading past the last second that a token can carry.
    #[error("refused 3: a clock reading past the last second that a token can carry")]
    LateClock = 3,
    /// A lifetime past the longest allowed.
    #[error("refused 4: a lifetime past the longest allowed")]
    LongLifetime = 4,
    /// A number of hash positions outside 1 to 64.
    #[error("refused 5: a number of hash positions outside 1 to 64")]
    HashCount = 5,
    /// A name or a token longer than a store takes.
    #[error("refused 6: a name or a token longer than a store takes")]
    LongEntry = 6,
    /// More asked for than is allowed, or less memory given than that needs.
    #[error("refused 7: more asked for than is allowed, or too little memory for it")]
    Capacity = 7,
    /// A retry for an arrival that a retry token has validated.
    #[error("refused 8: a retry for an arrival that a retry token has validated")]
    AlreadyRetried = 8,
    /// A grant past what a path may be sent, of too many bytes, or one too many; or more sent than granted.
    #[error("refused 41: a grant beyond what the path is allowed, or more sent than granted")]
    BeyondAllowance = 41,
    /// No path record is free, or no path is open that fits the path or the grant.
    #[error("refused 42: no path record is free, or no open path that the call fits")]
    NoPath = 42,
    /// A path with open grants is to be closed.
    #[error("refused 43: the path has open grants")]
    GrantsOpen = 43,
    /// Another reset token for a table that has no place for it.
    #[error("refused 44: the table of reset tokens is full")]
    ResetTableFull = 44,
}

/// Why a filter does not record a fingerprint.
#[derive(Clone, Copy, PartialEq, Eq, Debug, Error)]
pub enum FilterCause {
    /// The filter has it, or may have it.
    #[error("cause 13: the filter has it, or may have it")]
    Held,
    /// The filter has no room, and does not have it.
    #[error("cause 14: the filter has no room")]
    Full,
}

/// Why a log does not accept a pair.
#[derive(Clone, Copy, PartialEq, Eq, Debug, Error)]
pub enum LogCause {
    /// The lifetime of validation tokens is zero.
    #[error("cause 11: validation tokens have lifetime zero")]
    ZeroLifetime,
    /// The token expired before the log's period began.
    #[error("cause 12: it expired before the log's period began")]
    BeforePeriod,
    /// The log has it, or may have it.
    #[error("cause 13: the log has it, or may have it")]
    Held,
    /// The log has no room, and does not have it.
    #[error("cause 14: the log has no room")]
    Full,
}

/// Why a token was not honoured.
#[derive(Clone, Copy, PartialEq, Eq, Debug, Error)]
pub enum Cause {
    /// The lifetime of validation tokens is zero.
    #[error("cause 11: validation tokens have lifetime zero")]
    ZeroLifetime,
    /// The token expired before the log's period began.
    #[error("cause 12: it expired before the log's period began")]
    BeforePeriod,
    /// The log has it, or may have it.
    #[error("cause 13: the log has it, or may have it")]
    Held,
    /// The log has no room, and does not have it.
    #[error("cause 14: the log has no room")]
    Full,
    /// The packet brought no token.
    #[error("cause 20: no token")]
    EmptyToken,
    /// Too short or too long for a token, or nothing that the scheme sealed.
    #[error("cause 21: too short, too long, or not opened")]
    Unopened,
    /// Opened, but no content of a token.
    #[error("cause 22: no content of a token: {0}")]
    Undecodable(Fault),
    /// A validation token for another IP.
    #[error("cause 23: a validation token for another IP")]
    OtherIp,
    /// A validation token out of date.
    #[error("cause 24: a validation token out of date")]
    Expired,
    /// A retry token for another address.
    #[error("cause 31: a retry token for another address")]
    OtherAddress,
    /// A retry token out of date.
    #[error("cause 32: a retry token out of date")]
    RetryExpired,
}

/// What is wrong with the bytes of a content.
#[derive(Clone, Copy, PartialEq, Eq, Debug, Error)]
pub enum Fault {
    /// They end before the field does.
    #[error("they end before a field does")]
    Short,
    /// The first byte names no kind of token.
    #[error("no kind of token has the byte {0}")]
    TokenType(u8),
    /// The first byte of an IP names no kind of IP.
    #[error("no kind of IP has the byte {0}")]
    IpKind(u8),
    /// A connection id of more than 20 bytes: this many.
    #[error("a connection id of {0} bytes")]
    LongConnectionId(u8),
    /// An issue time past 32 bits of seconds.
    #[error("an issue time past 32 bits")]
    LateIssue,
    /// Bytes follow the last field.
    #[error("bytes behind the last field")]
    ExtraBytes,
}

/// A call that was refused, with what it was handed for good.
#[derive(Drop)]
pub struct Refused<T> {
    pub refusal: Refusal,
    pub back: T,
}

// A filter's cause is the log's above it, and a log's is the gate's.
impl From<FilterCause> for LogCause {
    ghost from_gives = { λ cause raised. raised ≡ log_cause_of cause };

    fn from(cause: FilterCause) -> LogCause {
        match cause {
            FilterCause::Held => LogCause::Held,
            FilterCause::Full => LogCause::Full,
        }
    }
}

impl From<LogCause> for Cause {
    ghost from_gives = { λ cause raised. raised ≡ cause_of cause };

    fn from(cause: LogCause) -> Cause {
        match cause {
            LogCause::ZeroLifetime => Cause::ZeroLifetime,
            LogCause::BeforePeriod => Cause::BeforePeriod,
            LogCause::Held => Cause::Held,
            LogCause::Full => Cause::Full,
        }
    }
}

impl From<Fault> for Cause {
    ghost from_gives = { λ fault cause. cause ≡ is_undecodable fault };

    fn from(fault: Fault) -> Cause {
        Cause::Undecodable(fault)
    }
}

impl Refusal {
    /// The number by which a refusal is known.
    pub fn number(self) -> u8
        ensures { result ≡ refusal_number self }
    {
        self as u8
    }
}

impl FilterCause {
    /// The number by which a filter's cause is known, 13 or 14.
    pub fn number(self) -> u8
        ensures { result ≡ filter_cause_number self }
    {
        match self {
            FilterCause::Held => 13,
            FilterCause::Full => 14,
        }
    }
}

impl LogCause {
    /// The number by which a log's cause is known, 11 to 14.
    pub fn number(self) -> u8
        ensures { result ≡ log_cause_number self }
    {
        match self {
            LogCause::ZeroLifetime => 11,
            LogCause::BeforePeriod => 12,
            LogCause::Held => 13,
            LogCause::Full => 14,
        }
    }
}

impl Cause {
    /// The number by which a cause is known: 11 to 14 from the log, 20 to 24 where an arrival goes on
    /// unvalidated, 31 and 32 where it is rejected.
    // Written out: a cause that has a fault cannot be cast.
    pub fn number(self) -> u8
        ensures { result ≡ cause_number self }
    {
        match self {
            Cause::ZeroLifetime => 11,
            Cause::BeforePeriod => 12,
            Cause::Held => 13,
            Cause::Full => 14,
            Cause::EmptyToken => 20,
            Cause::Unopened => 21,
            Cause::Undecodable(_) => 22,
            Cause::OtherIp => 23,
            Cause::Expired => 24,
            Cause::OtherAddress => 31,
            Cause::RetryExpired => 32,
        }
    }
}

/// Two refusals, causes or faults are equal just if they are the same.
pub fn equal_answers_are_the_same()
    ensures refusals { TellsSameness (⟦<Refusal as PartialEq>⟧.eq) }
    ensures filter_causes { TellsSameness (⟦<FilterCause as PartialEq>⟧.eq) }
    ensures log_causes { TellsSameness (⟦<LogCause as PartialEq>⟧.eq) }
    ensures causes { TellsSameness (⟦<Cause as PartialEq>⟧.eq) }
    ensures faults { TellsSameness (⟦<Fault as PartialEq>⟧.eq) }
{}

/// A clone of a refusal, a cause or a fault is what it was made of, and never fails.
pub fn cloned_answers_are_the_same()
    ensures refusals { ClonesAreTheSame (⟦<Refusal as Clone>⟧.is_clone) }
    ensures filter_causes { ClonesAreTheSame (⟦<FilterCause as Clone>⟧.is_clone) }
    ensures log_causes { ClonesAreTheSame (⟦<LogCause as Clone>⟧.is_clone) }
    ensures causes { ClonesAreTheSame (⟦<Cause as Clone>⟧.is_clone) }
    ensures faults { ClonesAreTheSame (⟦<Fault as Clone>⟧.is_clone) }
    ensures refusals_come { ClonesNeverFail (⟦<Refusal as Clone>⟧.is_infallible) }
    ensures filter_causes_come { ClonesNeverFail (⟦<FilterCause as Clone>⟧.is_infallible) }
    ensures log_causes_come { ClonesNeverFail (⟦<LogCause as Clone>⟧.is_infallible) }
    ensures causes_come { ClonesNeverFail (⟦<Cause as Clone>⟧.is_infallible) }
    ensures faults_come { ClonesNeverFail (⟦<Fault as Clone>⟧.is_infallible) }
{}

// The refusals in the order of their numbers, each cast.
const CASTS: [u8; 12] = [
    Refusal::SmallBuffer as u8,
    Refusal::LongConnectionId as u8,
    Refusal::LateClock as u8,
    Refusal::LongLifetime as u8,
    Refusal::HashCount as u8,
    Refusal::LongEntry as u8,
    Refusal::Capacity as u8,
    Refusal::AlreadyRetried as u8,
    Refusal::BeyondAllowance as u8,
    Refusal::NoPath as u8,
    Refusal::GrantsOpen as u8,
    Refusal::ResetTableFull as u8,
];

/// A refusal that is cast to a number is its number.
pub fn casts_are_numbers()
    ensures { CASTS ≡ 1 ∷ 2 ∷ 3 ∷ 4 ∷ 5 ∷ 6 ∷ 7 ∷ 8 ∷ 41 ∷ 42 ∷ 43 ∷ 44 ∷ [] }
{}

/// A number tells the refusal or the cause it stands for: refusals have 1 to 8 and 41 to 44, causes have more than 8, and no
/// number stands for one of each.
pub fn numbers_tell_answers()
    ensures { NumbersTell }
{}
