ghost use Rattle.std.specs.Prelude.{◌≡◌};
ghost use Rattle.sha256.specs.Hmac.{kept_of};
ghost use Rattle.own_parts.specs.Deriving.{derived_signature, length_derived, derived_within};

use answers::Refusal;
use sealing::WORKING_LEN;
use sha256::HmacKey;
use stateless_reset::{SigningKey, write_signature};

// How many bytes a derived key has.
const DERIVED_LEN: usize = 32;

/// A signing key that signs each message by HMAC-SHA-256 under a key of its own: one step of HKDF's expansion of a secret, with the
/// message as info. That key stands in the working bytes.
#[derive(Clone, Copy)]
pub struct DerivingKey {
    secret: HmacKey,
}

impl DerivingKey {
    /// The key of a secret of any length.
    pub fn new(secret: &[u8]) -> DerivingKey
        ensures { result ≡ record { secret = kept_of secret.now } }
    {
        DerivingKey {
            secret: HmacKey::new(secret),
        }
    }
}

impl SigningKey for DerivingKey {
    ghost signature = { λ k. derived_signature k.secret };

    ghost size = { λ k. 32 };

    fn signature_len(&self) -> usize {
        32
    }

    fn sign(
        &self,
        message: &[u8],
        out: &mut [u8],
        working: &mut [u8; WORKING_LEN],
    ) -> Result<usize, Refusal> {
        let derived = &mut working[..DERIVED_LEN];
        derived.copy_from_slice(&self.secret.expand(message));
        let key = HmacKey::new(derived);
        write_signature(&HmacKey::sign(&key, message), out)
    }

    ghost sized = { λ k m b. length_derived k.secret m };

    ghost within = { λ k. derived_within };
}
