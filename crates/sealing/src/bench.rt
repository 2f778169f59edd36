ghost use Rattle.std.specs.Prelude.{◌≡◌, ℕ, ◌+◌, ◌%◌, ◌<◌, slice_index};
ghost use Rattle.sealing.specs.Bench.{check_bytes};
ghost use Rattle.sealing.specs.Checks.{length_checks};

use crate::{NONCE_LEN, TAG_LEN, Tag, Tagged};
use std::array;

/// The tag of the bench scheme: 16 check bytes, which keep nobody out.
#[derive(Clone, Copy)]
pub struct BenchTag {
    key: [u8; 16],
}

/// A scheme for the bench: it hides nothing and keeps nobody out.
pub type BenchScheme = Tagged<BenchTag>;

impl Tagged<BenchTag> {
    /// The bench scheme of a key.
    pub fn new(key: [u8; 16]) -> BenchScheme
        ensures { result ≡ record { tag = record { key = key } } }
    {
        Tagged {
            tag: BenchTag { key },
        }
    }
}

// Byte by byte, the sum of two blocks.
fn sum(a: &[u8; TAG_LEN], b: &[u8; TAG_LEN]) -> [u8; TAG_LEN]
    ensures { (j : ℕ) → j < TAG_LEN → slice_index result j ≡ (slice_index a.now j + slice_index b.now j) % 256 }
{
    array::from_fn(|j| a[j].wrapping_add(b[j]))
}

/// The check bytes of a content of any length: byte j is the sum modulo 256 of key byte j, nonce byte j and every content byte
/// whose position leaves j modulo 16.
pub fn check_bytes(key: &[u8; TAG_LEN], nonce: &[u8; TAG_LEN], content: &[u8]) -> [u8; TAG_LEN]
    ensures { result ≡ check_bytes key.now nonce.now content.now }
{
    let mut sums = sum(key, nonce);
    // Each byte is added to the sum at its place, modulo sixteen: the place itself is what counts.
    for (i, byte) in content.iter().enumerate() {
        sums[i % TAG_LEN] = sums[i % TAG_LEN].wrapping_add(*byte);
    }
    sums
}

impl Tag for BenchTag {
    ghost tag_of = { λ s. check_bytes s.key };

    fn tag(&self, nonce: &[u8; NONCE_LEN], content: &[u8]) -> [u8; TAG_LEN] {
        check_bytes(&self.key, nonce, content)
    }

    ghost sixteen = { λ s n c m h. length_checks s.key n c };
}
