// HMAC-SHA-256 (RFC 2104) signs with the 32 bytes of a digest.
ghost use Rattle.sha256.specs.Hmac.{signed};
ghost use Rattle.stateless_reset.specs.Keys.{length_signed, hmac_within};

use crate::key::{SigningKey, write_signature};
use answers::Refusal;
use sealing::WORKING_LEN;
use sha256::HmacKey;

impl SigningKey for HmacKey {
    ghost signature = { signed };

    ghost size = { λ k. 32 };

    fn signature_len(&self) -> usize {
        32
    }

    fn sign(
        &self,
        message: &[u8],
        out: &mut [u8],
        _working: &mut [u8; WORKING_LEN],
    ) -> Result<usize, Refusal> {
        write_signature(&HmacKey::sign(self, message), out)
    }

    ghost sized = { λ k m b. length_signed k m };

    ghost within = { λ k. hmac_within };
}
