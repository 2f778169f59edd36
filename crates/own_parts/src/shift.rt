ghost use Rattle.std.specs.Prelude.{◌≡◌, ◌≤◌, List, ℕ, length, take};
ghost use Rattle.answers.specs.Buffers.{fronted};
ghost use Rattle.sealing.specs.Sealing.{Seals, Opens};
ghost use Rattle.own_parts.specs.Shifting.{shifted, back, shift_image, shift_opened, length_shifted, shift_undoes};

use answers::Refusal;
use sealing::{NONCE_LEN, SealingScheme, TAG_LEN, opened_len, same_tag, sealed_len};

/// A scheme that adds a key byte to each byte of a content, modulo 256, and puts sixteen zeros behind it. It keeps nobody out.
#[derive(Clone, Copy)]
pub struct Shift {
    key: u8,
}

impl Shift {
    /// The scheme of a key.
    pub fn new(key: u8) -> Shift
        ensures { result ≡ record { key = key } }
    {
        Shift { key }
    }
}

// Writes the bytes of a content, each with the key added, to the front of a buffer.
fn add_key(key: u8, content: &[u8], out: &mut [u8])
    requires { length content.now ≤ length out.old }
    ensures { out.new ≡ fronted (shifted key content.now) out.old }
{
    for (i, byte) in content.iter().enumerate() {
        out[i] = byte.wrapping_add(key);
    }
}

impl SealingScheme for Shift {
    ghost image = { λ s. shift_image s.key };

    ghost opened = { λ s. shift_opened s.key };

    ghost longer = { λ s n c m h. length_shifted s.key n c };

    ghost opens = { λ s. (shift_undoes s.key).opens };

    ghost only = { λ s. (shift_undoes s.key).only };

    fn seal(
        &self,
        nonce: &[u8; NONCE_LEN],
        len: usize,
        out: &mut [u8],
        working: &mut [u8],
    ) -> Result<usize, Refusal> {
        let end = sealed_len(len, out, working)?;
        add_key(self.key, &working[..len], out);
        out[len..end].fill(0);
        Ok(end)
    }

    fn open(
        &self,
        nonce: &[u8; NONCE_LEN],
        sealed: &[u8],
        working: &mut [u8],
    ) -> Result<Option<usize>, Refusal> {
        wire::slices_are_bytes(sealed);
        let Some(len) = opened_len(sealed, working)? else {
            return Ok(None);
        };
        if !same_tag(&sealed[len..], &[0; TAG_LEN]) {
            return Ok(None);
        }
        add_key(0u8.wrapping_sub(self.key), &sealed[..len], working);
        Ok(Some(len))
    }
}
