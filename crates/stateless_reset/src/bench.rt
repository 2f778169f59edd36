ghost use Rattle.std.specs.Prelude.{◌≡◌, replicate};
ghost use Rattle.sealing.specs.Bench.{check_bytes as check_bytes_of};
ghost use Rattle.sealing.specs.Checks.{length_checks};
ghost use Rattle.sealing.specs.declared.TheConstants.{NONCE_LEN as nonce_len};
ghost use Rattle.stateless_reset.specs.Keys.{bench_within};

use crate::key::{SigningKey, write_signature};
use answers::Refusal;
use sealing::{NONCE_LEN, TAG_LEN, WORKING_LEN, check_bytes};

/// A signing key for the bench: it signs with the check bytes of the bench scheme under a nonce of zeros. It keeps nobody out.
#[derive(Clone, Copy)]
pub struct BenchKey {
    key: [u8; TAG_LEN],
}

impl BenchKey {
    /// The bench key of these bytes.
    pub fn new(key: [u8; TAG_LEN]) -> BenchKey
        ensures { result ≡ record { key = key } }
    {
        BenchKey { key }
    }
}

impl SigningKey for BenchKey {
    ghost signature = { λ k. check_bytes_of k.key (replicate nonce_len 0) };

    ghost size = { λ k. 16 };

    fn signature_len(&self) -> usize {
        TAG_LEN
    }

    fn sign(
        &self,
        message: &[u8],
        out: &mut [u8],
        _working: &mut [u8; WORKING_LEN],
    ) -> Result<usize, Refusal> {
        write_signature(&check_bytes(&self.key, &[0; NONCE_LEN], message), out)
    }

    ghost sized = { λ k m b. length_checks k.key (replicate nonce_len 0) m };

    ghost within = { λ k. bench_within };
}
