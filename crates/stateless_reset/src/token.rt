ghost use Rattle.std.specs.Prelude.{◌≡◌, take, replicate};
ghost use Rattle.std.proofs.Common.{rules};
ghost use Rattle.std.specs.Cmp.Rules.{comparing};
ghost use Rattle.std.specs.Str.{bytes_eq};
ghost use Rattle.stateless_reset.specs.declared.TheConstants.{RESET_TOKEN_SIZE as token_size, RESET_WORKING_LEN as signing_len};
ghost use Rattle.stateless_reset.specs.Tokens.{Makes};

use crate::constant_time::constant_time_eq;
use crate::guard::Signing;
use crate::key::SigningKey;
use crate::{RESET_TOKEN_SIZE, RESET_WORKING_LEN};
use answers::Refusal;
use sealing::WORKING_LEN;
use std::marker::Model;
use wire::ConnectionId;

/// A stateless reset token: the 16 bytes that end a stateless reset.
#[derive(Clone, Copy, Debug)]
pub struct ResetToken {
    bytes: [u8; RESET_TOKEN_SIZE],
}

// In clauses a token is its bytes.
impl Model for ResetToken {
    ghost use Rattle.std.specs.Prelude.{ℕ, List};

    ghost Value = { List ℕ };

    ghost view = { λ t. t.bytes };

    ghost use Rattle.stateless_reset.specs.Laid.{Laid, laid_out, laid_out_again};

    ghost invariant = { Laid };

    ghost inverse = { laid_out };

    ghost inverse_ok = { laid_out_again };
}

// Signs into the bytes behind the working bytes, which have room for every signature, and takes the first 16.
fn first_bytes<K: SigningKey>(
    key: &K,
    id: &[u8],
    buffer: &mut [u8; RESET_WORKING_LEN],
) -> ResetToken
    ensures { result ≡ take token_size (K.SigningKey.signature key.now id.now) }
{
    wire::slices_are_bytes(id);
    let (working, signature) = buffer.split_first_chunk_mut::<WORKING_LEN>().unwrap();
    key.sign(id, signature, working).unwrap();
    ResetToken {
        bytes: *signature.first_chunk().unwrap(),
    }
}

// The same, and the guard wipes signature and working bytes. It has to be made as the first statement of a function.
fn sign_id<K: SigningKey>(key: &K, id: &[u8], buffer: &mut [u8; RESET_WORKING_LEN]) -> ResetToken
    ensures token { result ≡ take token_size (K.SigningKey.signature key.now id.now) }
    ensures blank { buffer.new ≡ replicate signing_len 0 }
{
    let guard = Signing(buffer);
    first_bytes(key, id, guard.0)
}

impl ResetToken {
    /// The token of a connection id under a key: the first 16 bytes of the key's signature of the id's bytes, at most 20. Refused
    /// by 1 where `working` has fewer than 160 bytes, then by 2 for a longer id: `working` is as it was then. Otherwise its first
    /// 160 bytes are zero afterwards, and those past them stay.
    pub fn new<K: SigningKey>(key: &K, id: &[u8], working: &mut [u8]) -> Result<ResetToken, Refusal>
        ensures { Makes (K.SigningKey.signature key.now) id.now working.old working.new result }
    {
        if working.len() < RESET_WORKING_LEN {
            return Err(Refusal::SmallBuffer);
        }
        let id = ConnectionId::new(id)?;
        let buffer = working.first_chunk_mut().unwrap();
        Ok(sign_id(key, id.as_slice(), buffer))
    }

    /// The token's bytes.
    pub fn as_bytes(&self) -> &[u8; RESET_TOKEN_SIZE]
        ensures { result.now ≡ self.now }
    {
        &self.bytes
    }
}

/// The token that has these bytes, as a peer gave it.
impl From<[u8; RESET_TOKEN_SIZE]> for ResetToken {
    ghost from_gives = { λ given token. token ≡ given };

    fn from(bytes: [u8; RESET_TOKEN_SIZE]) -> ResetToken {
        ResetToken { bytes }
    }
}

/// Tokens are compared by `constant_time_eq`.
impl PartialEq for ResetToken {
    ghost eq = { bytes_eq };

    ghost laws = { Prim.search (comparing, rules) };

    fn eq(&self, other: &ResetToken) -> bool {
        constant_time_eq(&self.bytes, &other.bytes)
    }
}

impl Eq for ResetToken {
    ghost laws = { Prim.search (comparing, rules) };
}
