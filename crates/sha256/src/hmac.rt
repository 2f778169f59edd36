ghost use Rattle.std.specs.Prelude.{◌≡◌, ℕ, ◌+◌, ◌<◌, List, [], ◌∷◌, ◌++◌, map, length, take, bit_xor};
ghost use Rattle.sha256.specs.Hmac.{key_block, kept_of, hmac as hmac_of, signed};

use crate::block::{BLOCK, compress};
use crate::constants::INITIAL;
use crate::message::{absorb, digest, digest_after, finish};

// The bytes of the inner and the outer pad.
const INNER_PAD: u8 = 0x36;

const OUTER_PAD: u8 = 0x5c;

// The byte behind the info in the first step of an expansion.
const FIRST_STEP: u8 = 1;

// HMAC-SHA-256 under one key, by the hash values after the two pads: what is kept instead of the key.
#[derive(Clone, Copy)]
pub struct HmacKey {
    inner: [u32; 8],
    outer: [u32; 8],
}

// The key in a block, or its digest where it is longer.
fn key_block(key: &[u8]) -> [u8; BLOCK]
    ensures { result ≡ key_block key.now }
{
    let mut block = [0; BLOCK];
    if key.len() > BLOCK {
        block[0..32].copy_from_slice(&digest(key));
    } else {
        block[0..key.len()].copy_from_slice(key);
    }
    block
}

fn mask(block: &[u8; BLOCK], pad: u8) -> [u8; BLOCK]
    ensures { result ≡ map (λ b. bit_xor b pad) block.now }
{
    block.map(|b| b ^ pad)
}

// What is left of an info after its whole blocks, and the byte 1 behind it.
fn last_info(rest: &[u8]) -> [u8; BLOCK]
    requires { length rest.now < 64 }
    ensures { take (length rest.now + 1) result ≡ rest.now ++ (1 ∷ []) }
{
    let mut tail = [0; BLOCK];
    tail[0..rest.len()].copy_from_slice(rest);
    tail[rest.len()] = FIRST_STEP;
    tail
}

impl HmacKey {
    // A key of any length. Under it, each message is signed as RFC 2104 says.
    pub fn new(key: &[u8]) -> HmacKey
        ensures kept { result ≡ kept_of key.now }
        ensures signs { (m : List ℕ) → signed result m ≡ hmac_of key.now m }
    {
        let block = key_block(key);
        HmacKey {
            inner: compress(INITIAL, &mask(&block, INNER_PAD)),
            outer: compress(INITIAL, &mask(&block, OUTER_PAD)),
        }
    }

    pub fn sign(&self, message: &[u8]) -> [u8; 32]
        ensures { result ≡ signed self.now message.now }
    {
        let inner = digest_after(self.inner, BLOCK as u64, message);
        digest_after(self.outer, BLOCK as u64, &inner)
    }

    // One step of HKDF's expansion: the signature of the info and the byte 1.
    pub fn expand(&self, info: &[u8]) -> [u8; 32]
        ensures { result ≡ signed self.now (info.now ++ (1 ∷ [])) }
    {
        let (_, rest) = info.as_chunks::<BLOCK>();
        let tail = last_info(rest);
        let total = (BLOCK as u64 + 1).wrapping_add(info.len() as u64);
        let inner = finish(absorb(self.inner, info), &tail[..rest.len() + 1], total);
        digest_after(self.outer, BLOCK as u64, &inner)
    }
}
