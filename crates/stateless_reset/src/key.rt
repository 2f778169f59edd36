ghost use Rattle.std.specs.Prelude.{◌≡◌, ℕ, ◌≤◌, List, length};
ghost use Rattle.answers.specs.Buffers.{Written};
ghost use Rattle.wire.specs.Numbers.{Bytes};
ghost use Rattle.stateless_reset.specs.declared.TheConstants.{RESET_TOKEN_SIZE, MAX_SIGNATURE_LEN};

use answers::Refusal;
use sealing::WORKING_LEN;

/// A key that signs. It means a map from messages to signatures, which all have one length, from 16 to 64 bytes.
pub trait SigningKey {
    // the signature of a message
    ghost signature: { Self → List ℕ → List ℕ };

    // how many bytes each signature has
    ghost size: { Self → ℕ };

    /// How many bytes each signature of this key has, 16 to 64.
    fn signature_len(&self) -> usize
        ensures { result ≡ size self.now };

    /// Writes the signature of a message to the front of `out`, and answers its length; the rest of `out` stays. Refused by 1
    /// where `out` is shorter, and nothing is written there then. The working bytes are the key's to use: whoever calls wipes them.
    fn sign(
        &self,
        message: &[u8],
        out: &mut [u8],
        working: &mut [u8; WORKING_LEN],
    ) -> Result<usize, Refusal>
        ensures { Written (signature self.now message.now) out.old out.new result };

    // The law speaks of messages as a call has them: of bytes.
    ghost sized: { (k : Self) (m : List ℕ) → Bytes m → length (signature k m) ≡ size k };

    ghost within: { (k : Self) → (RESET_TOKEN_SIZE ≤ size k) × (size k ≤ MAX_SIGNATURE_LEN) };
}

/// Writes a signature to the front of `out`, and answers its length; the rest of `out` stays. Refused by 1 where `out` is
/// shorter, and nothing is written then.
pub fn write_signature(signature: &[u8], out: &mut [u8]) -> Result<usize, Refusal>
    ensures { Written signature.now out.old out.new result }
{
    if out.len() < signature.len() {
        return Err(Refusal::SmallBuffer);
    }
    out[..signature.len()].copy_from_slice(signature);
    Ok(signature.len())
}
