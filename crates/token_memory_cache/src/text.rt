ghost use Rattle.std.specs.Prelude.{◌≡◌, ◌≤◌, ◌^◌, ◌<◌, [], length};
ghost use Rattle.std.specs.Str.{bytes_eq};

use std::marker::Model;

/// At most N bytes; the rest of the array is zero. A buffer with a length beside, as it is copied and takes no heap.
#[derive(Clone, Copy)]
pub struct Text<const N: usize> {
    len: u16,
    bytes: [u8; N],
}

// In clauses a text is its bytes.
impl<const N: usize> Model for Text<N> {
    ghost use Rattle.std.specs.Prelude.{ℕ, List, take};

    ghost Value = { List ℕ };

    ghost view = { λ t. take t.len t.bytes };

    ghost use Rattle.token_memory_cache.specs.Texts.{Laid, laid_out, laid_out_again};

    ghost invariant = { Laid N };

    ghost inverse = { laid_out N };

    ghost inverse_ok = { laid_out_again N };
}

impl<const N: usize> Text<N> {
    /// No bytes: a text to lend memory with.
    pub fn new() -> Text<N>
        ensures { result ≡ [] }
    {
        Text {
            len: 0,
            bytes: [0; N],
        }
    }

    // A copy of these bytes.
    pub(crate) fn of(bytes: &[u8]) -> Text<N>
        requires { (length bytes.now ≤ N) × (N < 2 ^ 16) }
        ensures { result ≡ bytes.now }
    {
        let mut text = [0; N];
        text[..bytes.len()].copy_from_slice(bytes);
        Text {
            len: bytes.len() as u16,
            bytes: text,
        }
    }

    pub(crate) fn as_slice(&self) -> &[u8]
        ensures { result.now ≡ self.now }
    {
        &self.bytes[..self.len as usize]
    }

    pub(crate) fn is(&self, bytes: &[u8]) -> bool
        ensures { result ≡ bytes_eq bytes.now self.now }
    {
        bytes == self.as_slice()
    }
}
