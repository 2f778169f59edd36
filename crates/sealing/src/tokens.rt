ghost use Rattle.std.specs.Prelude.{◌≡◌, ◌+◌, ◌≤◌, length, take, replicate, MatchResult, Ok, Err};
ghost use Rattle.answers.specs.Buffers.{fronted};
ghost use Rattle.wire.specs.Content.{encode_content};
ghost use Rattle.wire.specs.Numbers.{Bytes, from_little_endian};
ghost use Rattle.wire.specs.declared.TheConstants.{MAX_PAYLOAD_LEN};
ghost use Rattle.sealing.specs.declared.TheConstants.{MAX_CONTENT_LEN, TAG_LEN};
ghost use Rattle.sealing.specs.Tokens.{nonce_bytes, sealed_of, nonce_of, sized, sealed_with, token_for, TokenRead, TokenWritten, Wrote};

use crate::token::{Nonce, Token};
use crate::working::Working;
use crate::{MAX_TOKEN_LEN, NONCE_LEN, SealingScheme, WORKING_LEN};
use answers::{Cause, Refusal, Refused};
use wire::TokenPayload;

impl Nonce {
    // The nonce of two halves that the host has drawn.
    pub fn new(low: u64, high: u64) -> Nonce
        ensures { result ≡ record { low = low; high = high } }
    {
        Nonce { low, high }
    }

    fn to_bytes(&self) -> [u8; NONCE_LEN]
        ensures { result ≡ nonce_bytes self.now.low self.now.high }
    {
        let mut bytes = [0; NONCE_LEN];
        bytes[0..8].copy_from_slice(&self.low.to_le_bytes());
        bytes[8..16].copy_from_slice(&self.high.to_le_bytes());
        bytes
    }
}

fn low_half(nonce: &[u8; NONCE_LEN]) -> u64
    ensures { result ≡ from_little_endian (take 8 nonce.now) }
{
    u64::from_le_bytes(*nonce.first_chunk::<8>().unwrap())
}

// The sealed bytes of a token of 16 to 81 bytes, and the nonce behind them.
fn parts(token: &[u8]) -> Result<(&[u8], &[u8; NONCE_LEN]), Cause>
    ensures { MatchResult result (λ p. (sized token.now ≡ Ok tt) × ((p.0.now ≡ sealed_of token.now) × (p.1.now ≡ nonce_of token.now))) (λ e. sized token.now ≡ Err e) }
{
    if token.is_empty() {
        return Err(Cause::EmptyToken);
    }
    if token.len() > MAX_TOKEN_LEN {
        return Err(Cause::Unopened);
    }
    token.split_last_chunk::<NONCE_LEN>().ok_or(Cause::Unopened)
}

// Opens the token into the working bytes and decodes what stands there. A scheme refuses nothing here, as it gets working
// bytes enough.
fn read_token<S: SealingScheme>(
    scheme: &S,
    token: &[u8],
    working: &mut [u8; WORKING_LEN],
) -> Result<Token, Cause>
    ensures { TokenRead (S.SealingScheme.opened scheme.now) token.now result }
{
    let (sealed, nonce) = parts(token)?;
    let Some(len) = scheme.open(nonce, sealed, working).unwrap() else {
        return Err(Cause::Unopened);
    };
    let payload = TokenPayload::decode(&working[0..len])?;
    Ok(Token {
        payload,
        low: low_half(nonce),
    })
}

/// Opens a token, which may be any bytes, and decodes what it says; or tells why it says nothing: causes 20, 21 and 22.
/// All working bytes are zero afterwards.
// The guard wipes them. It has to be made as the first statement of a function.
pub fn decode_token<S: SealingScheme>(
    scheme: &S,
    token: &[u8],
    working: &mut [u8; WORKING_LEN],
) -> Result<Token, Cause>
    ensures read { TokenRead (S.SealingScheme.opened scheme.now) token.now result }
    ensures blank { working.new ≡ replicate WORKING_LEN 0 }
{
    let guard = Working(working);
    read_token(scheme, token, guard.0)
}

// Encodes into the working bytes, which have room for every content.
fn encode_into(payload: &TokenPayload, working: &mut [u8; WORKING_LEN]) -> usize
    ensures len { result ≡ length (encode_content payload.now) }
    ensures bound { result ≤ MAX_PAYLOAD_LEN }
    ensures bytes { Bytes (encode_content payload.now) }
    ensures after { working.new ≡ fronted (encode_content payload.now) working.old }
{
    wire::payloads_are_sound(payload);
    payload.encode(working).unwrap()
}

// Seals with room enough, so that the scheme refuses nothing.
fn seal_into<S: SealingScheme>(
    scheme: &S,
    nonce: &[u8; NONCE_LEN],
    len: usize,
    out: &mut [u8],
    working: &mut [u8; WORKING_LEN],
) -> usize
    requires short { len ≤ MAX_CONTENT_LEN }
    requires room { len + TAG_LEN ≤ length out.old }
    ensures len { result ≡ len + TAG_LEN }
    ensures after { out.new ≡ fronted (S.SealingScheme.image scheme.now nonce.now (take len working.old)) out.old }
{
    scheme.seal(nonce, len, out, working).unwrap()
}

// Encodes the content into the working bytes and seals what stands there.
fn write_token<S: SealingScheme>(
    scheme: &S,
    payload: &TokenPayload,
    nonce: &[u8; NONCE_LEN],
    out: &mut [u8],
    working: &mut [u8; WORKING_LEN],
) -> usize
    requires { MAX_TOKEN_LEN ≤ length out.old }
    ensures { TokenWritten (sealed_with (S.SealingScheme.image scheme.now) nonce.now payload.now) out.old out.new result }
{
    wire::slices_are_bytes(nonce);
    let len = encode_into(payload, working);
    let end = seal_into(scheme, nonce, len, out, working);
    out[end..end + NONCE_LEN].copy_from_slice(nonce);
    end + NONCE_LEN
}

// The same, and the guard wipes the working bytes, as above.
fn seal_token<S: SealingScheme>(
    scheme: &S,
    payload: &TokenPayload,
    nonce: &[u8; NONCE_LEN],
    out: &mut [u8],
    working: &mut [u8; WORKING_LEN],
) -> usize
    requires { MAX_TOKEN_LEN ≤ length out.old }
    ensures written { TokenWritten (sealed_with (S.SealingScheme.image scheme.now) nonce.now payload.now) out.old out.new result }
    ensures blank { working.new ≡ replicate WORKING_LEN 0 }
{
    let guard = Working(working);
    write_token(scheme, payload, nonce, out, guard.0)
}

/// Writes the token of a content to the front of `out` and answers its length, 46 to 81 bytes; all working bytes are
/// zero afterwards. Fewer than 81 bytes of buffer are refused by 1: the nonce comes back, and nothing was written.
pub fn encode_token<S: SealingScheme>(
    scheme: &S,
    payload: &TokenPayload,
    nonce: Nonce,
    out: &mut [u8],
    working: &mut [u8; WORKING_LEN],
) -> Result<usize, Refused<Nonce>>
    ensures { Wrote (token_for (S.SealingScheme.image scheme.now) nonce.low nonce.high payload.now) working.old working.new out.old out.new nonce result }
{
    if out.len() < MAX_TOKEN_LEN {
        return Err(Refused {
            refusal: Refusal::SmallBuffer,
            back: nonce,
        });
    }
    Ok(seal_token(scheme, payload, &nonce.to_bytes(), out, working))
}
