#![tactic(auto)]

ghost use Rattle.std.specs.Prelude.{◌≡◌, ◌≤◌, [], length, IfOk, Ok, OnOk};
ghost use Rattle.sealing.specs.Tokens.{says, token_for, wiped, TokenRead, TokenWritten};
ghost use Rattle.gate.specs.Calls.{Writes, FitsRetry, issue_of, arrival_of, with_nonce, with_slip, token_issued, token_retried, wrote, weigh, judged_by, told, arrived, working_after};
ghost use Rattle.answers.specs.Successions.{Adds};
ghost use Rattle.gate.specs.Successions.{terms, Follows, Unmoved, Step, Leads};
ghost use Rattle.gate.specs.Successions.Call.{issuing, arriving};

mod checks;
mod laws;
mod slip;
mod verdict;

use answers::{Cause, Refusal, Refused};
pub use checks::{LAST_CLOCK, the_limits_are_those_of_the_rules};
use checks::{admit, date, in_date};
pub use laws::{
    a_gate_answers_as_its_log, a_gate_over_a_budget_answers_as_its_machine,
    a_retry_token_in_date_validates_its_address, an_issued_token_carries_its_low_half_and_second,
    an_issued_token_is_honoured_unless_barred, every_issued_token_in_date_is_honoured,
    no_token_is_honoured_twice, no_two_arrivals_with_one_token_are_honoured,
};
use sealing::{Nonce, SealingScheme, Token, WORKING_LEN, decode_token, encode_token};
pub use slip::{Accepted, AddressValidation, Slip, equal_validations_are_the_same};
use token_log::{Lifetime, TokenLog};
use verdict::Weighed;
pub use verdict::{Arrived, Verdict, equal_verdicts_are_the_same};
use wire::{ConnectionId, IpAddr, SocketAddr, TokenPayload};

/// Writes tokens, and decides whether an arriving one is honoured.
#[derive(Drop)]
pub struct Gate<S, L> {
    scheme: S,
    log: L,
    retry: Lifetime,
    validation: Lifetime,
}

impl<S: SealingScheme, L: TokenLog> Gate<S, L> {
    /// A gate with a scheme, a log, and the lifetimes of retry and of validation tokens.
    pub fn new(scheme: S, log: L, retry: Lifetime, validation: Lifetime) -> Gate<S, L>
        ensures gate { result ≡ record { scheme = scheme; log = log; retry = retry; validation = validation } }
        ensures fresh { Leads S.image S.opened L.logs (record { scheme = scheme; log = log; retry = retry; validation = validation }) [] result }
    {
        Gate {
            scheme,
            log,
            retry,
            validation,
        }
    }

    /// What the gate was made of, as it is now: the scheme, the log with all that it bars, and the lifetimes of retry and of
    /// validation tokens.
    pub fn into_parts(self) -> (S, L, Lifetime, Lifetime)
        ensures { result ≡ (self.scheme, self.log, self.retry, self.validation) }
    {
        (self.scheme, self.log, self.retry, self.validation)
    }

    /// Writes a validation token for the IP, to be sent in a NEW_TOKEN frame, to the front of `out`, and answers its length. It
    /// is dated by the whole second of the clock, which counts nanoseconds since 1970. Refused by 1 where `out` has fewer than
    /// 81 bytes or `working` fewer than 96, and by 3 for a clock past `LAST_CLOCK`: then the nonce comes back, and both buffers
    /// are as they were. The gate stays as it is.
    pub fn issue(
        &mut self,
        nonce: Nonce,
        ip: IpAddr,
        clock: u64,
        out: &mut [u8],
        working: &mut [u8],
    ) -> Result<usize, Refused<Nonce>>
        ensures writes { Writes (with_nonce nonce) (token_issued (terms S.image S.opened self.old) (issue_of nonce ip clock out.old working.old)) working.old working.new out.old out.new result }
        ensures kept { self.new ≡ self.old }
        ensures adds { Adds (Step S.image S.opened L.logs) (issuing (issue_of nonce ip clock out.old working.old) (wrote out.new result)) self.old self.new }
    {
        wire::ips_are_sound(ip);
        // No `map_err`, whose closure would take the nonce, dated or not.
        let issued = match date(out.len(), working.len(), clock) {
            Ok(issued) => issued,
            Err(refusal) => return Err(Refused {
                refusal,
                back: nonce,
            }),
        };
        let payload = TokenPayload::Validation { ip, issued };
        Ok(write(&self.scheme, &payload, nonce, out, working))
    }

    /// Judges an arrival by its token, which may be any bytes: the first Initial packet of a client brings it to
    /// the destination id, from the address, at a clock reading in nanoseconds since 1970. Refused by 1 where `working` has fewer
    /// than 96 bytes, by 2 for an id of more than 20 bytes and by 3 for a clock past `LAST_CLOCK`: then gate and working bytes are
    /// as they were.
    pub fn arrive(
        &mut self,
        token: &[u8],
        destination: &[u8],
        address: SocketAddr,
        clock: u64,
        working: &mut [u8],
    ) -> Result<Arrived, Refusal>
        ensures step { Step S.image S.opened L.logs self.old (arriving (arrival_of token.now destination.now address clock working.old) (told result)) self.new }
        ensures slip { IfOk result (λ a. a ≡ arrived address destination.now a.verdict) }
        ensures blank { working.new ≡ working_after result working.old }
        ensures adds { Adds (Step S.image S.opened L.logs) (arriving (arrival_of token.now destination.now address clock working.old) (told result)) self.old self.new }
    {
        let here = admit(working.len(), destination, clock)?;
        let weighed = self.weigh(token, here, address, clock, working);
        let verdict = self.decide(weighed, here);
        let slip = verdict.slip(address, here);
        Ok(Arrived { verdict, slip })
    }

    // What an arrival that is not refused decides alone.
    fn weigh(
        &self,
        token: &[u8],
        here: ConnectionId,
        address: SocketAddr,
        clock: u64,
        working: &mut [u8],
    ) -> Weighed
        requires { WORKING_LEN ≤ length working.old }
        ensures value { judged_by result ≡ weigh (terms S.image S.opened self.now) (arrival_of token.now here address clock working.old) (says (S.opened self.now.scheme) token.now) }
        ensures blank { working.new ≡ wiped working.old }
    {
        let token = match read(&self.scheme, token, working) {
            Ok(token) => token,
            Err(cause) => return Weighed::unvalidated(cause, here),
        };
        match &token.payload {
            TokenPayload::Retry { address: asked, .. } if *asked != address => {
                Weighed::rejected(Cause::OtherAddress)
            }
            TokenPayload::Retry { issued, .. } if !in_date(*issued, self.retry, clock) => {
                Weighed::rejected(Cause::RetryExpired)
            }
            TokenPayload::Retry { orig_dst_cid, .. } => Weighed::retried(here, *orig_dst_cid),
            TokenPayload::Validation { ip, .. } if *ip != address.ip => {
                Weighed::unvalidated(Cause::OtherIp, here)
            }
            TokenPayload::Validation { issued, .. } if !in_date(*issued, self.validation, clock) =>
                { Weighed::unvalidated(Cause::Expired, here) }
            TokenPayload::Validation { issued, .. } => Weighed::Asks {
                low: token.low,
                issued: *issued,
            },
        }
    }

    // The verdict: where the arrival alone does not decide, the log's answer does.
    fn decide(&mut self, weighed: Weighed, here: ConnectionId) -> Verdict
        ensures kept { Unmoved self.old self.new }
        ensures follows { Follows L.logs (terms S.image S.opened self.old) here (Ok (judged_by weighed)) (Ok result) self.old.log self.new.log }
    {
        match weighed {
            Weighed::Settled(verdict) => verdict,
            Weighed::Asks { low, issued } => {
                match self.log.check_and_insert(low, issued, self.validation) {
                    Ok(()) => Verdict::Validated {
                        retry_src_cid: None,
                        orig_dst_cid: here,
                    },
                    Err(cause) => Verdict::Unvalidated {
                        cause: cause.into(),
                        orig_dst_cid: here,
                    },
                }
            }
        }
    }

    /// Spends the slip for a retry token: for its address, with its destination id as the original id, dated by the whole
    /// second of the clock, which counts nanoseconds since 1970. It is written to the front of `out`, and its length answered.
    /// Refused by 1 where `out` has fewer than 81 bytes or `working` fewer than 96, by 3 for a clock past `LAST_CLOCK`, and by 8
    /// for a slip that may not be retried: then slip and nonce come back, and both buffers are as they were.
    pub fn retry(
        &self,
        slip: Slip,
        nonce: Nonce,
        clock: u64,
        out: &mut [u8],
        working: &mut [u8],
    ) -> Result<usize, Refused<(Slip, Nonce)>>
        ensures writes { Writes (with_slip slip nonce) (token_retried (S.image self.now.scheme) nonce slip clock (length out.old) (length working.old)) working.old working.new out.old out.new result }
        ensures fits { OnOk result (FitsRetry nonce slip) }
    {
        let issued = match date(out.len(), working.len(), clock) {
            Ok(issued) => issued,
            Err(refusal) => return Err(Refused {
                refusal,
                back: (slip, nonce),
            }),
        };
        if slip.validation == AddressValidation::ByRetry {
            return Err(Refused {
                refusal: Refusal::AlreadyRetried,
                back: (slip, nonce),
            });
        }
        let Slip {
            address,
            destination,
            validation: _,
        } = slip;
        let payload = TokenPayload::Retry {
            address,
            orig_dst_cid: destination,
            issued,
        };
        wire::payloads_are_sound(&payload);
        Ok(write(&self.scheme, &payload, nonce, out, working))
    }
}

// Writes a token into a buffer and with working bytes that are enough, so that nothing is refused.
fn write<S: SealingScheme>(
    scheme: &S,
    payload: &TokenPayload,
    nonce: Nonce,
    out: &mut [u8],
    working: &mut [u8],
) -> usize
    requires room { 81 ≤ length out.old }
    requires enough { 96 ≤ length working.old }
    ensures written { TokenWritten (token_for (S.SealingScheme.image scheme.now) nonce.low nonce.high payload.now) out.old out.new result }
    ensures blank { working.new ≡ wiped working.old }
{
    let working = working.first_chunk_mut::<WORKING_LEN>().unwrap();
    encode_token(scheme, payload, nonce, out, working).unwrap()
}

// Reads a token with working bytes that are enough.
fn read<S: SealingScheme>(scheme: &S, token: &[u8], working: &mut [u8]) -> Result<Token, Cause>
    requires { WORKING_LEN ≤ length working.old }
    ensures said { TokenRead (S.opened scheme.now) token.now result }
    ensures blank { working.new ≡ wiped working.old }
{
    decode_token(
        scheme,
        token,
        working.first_chunk_mut::<WORKING_LEN>().unwrap(),
    )
}
