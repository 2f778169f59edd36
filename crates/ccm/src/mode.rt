// CCM with a nonce of zeros, over the cipher of one key.
ghost use Rattle.std.specs.Prelude.{◌≡◌, ℕ, ◌*◌, ◌<◌, ◌≤◌, length, slice_index};
ghost use Rattle.answers.specs.Buffers.{fronted};
ghost use Rattle.aes.specs.Cipher.{cipher};
ghost use Rattle.ccm.specs.Mode.{headed as headed_of, content_block, xored, mac as mac_of, tag_of, stream_at, masked};

use aes::Aes256;
use sealing::{MAX_CONTENT_LEN, TAG_LEN};
use std::array;

const BLOCK: usize = 16;

// The flags of the first block, for a tag of 16 bytes and a length of 3, and of the counter blocks.
const FIRST_FLAGS: u8 = 58;

const COUNTER_FLAGS: u8 = 2;

// A byte of flags, the nonce, and a number of three bytes.
fn headed(flags: u8, n: usize) -> [u8; 16]
    ensures { result ≡ headed_of flags n }
{
    let mut block = [0; BLOCK];
    block[0] = flags;
    block[13..].copy_from_slice(&n.to_be_bytes()[5..]);
    block
}

// The first 16 bytes of a part of the content, with zeros up to 16 bytes.
fn content_block(part: &[u8]) -> [u8; 16]
    ensures { result ≡ content_block part.now 0 }
{
    let len = part.len().min(BLOCK);
    let mut block = [0; BLOCK];
    block[0..len].copy_from_slice(&part[..len]);
    block
}

fn xor(a: [u8; 16], b: [u8; 16]) -> [u8; 16]
    ensures { result ≡ xored a b }
{
    array::from_fn(|j| a[j] ^ b[j])
}

// CBC-MAC of a content.
fn mac(aes: &Aes256, content: &[u8]) -> [u8; 16]
    ensures { result ≡ mac_of (cipher aes.now.round_keys) content.now }
{
    let first = aes.encrypt_block(headed(FIRST_FLAGS, content.len()));
    content.chunks(BLOCK).fold(
        first,
        |x: [u8; 16], part: &[u8]| -> [u8; 16]
            ensures { result ≡ cipher aes.entry.now.round_keys (xored x (content_block part.now 0)) }
        { aes.encrypt_block(xor(x, content_block(part))) },
    )
}

pub(crate) fn tag(aes: &Aes256, content: &[u8]) -> [u8; TAG_LEN]
    ensures { result ≡ tag_of (cipher aes.now.round_keys) content.now }
{
    xor(
        mac(aes, content),
        aes.encrypt_block(headed(COUNTER_FLAGS, 0)),
    )
}

// So many blocks of the key stream.
fn key_stream(aes: &Aes256, blocks: usize) -> [u8; MAX_CONTENT_LEN]
    requires { blocks ≤ 4 }
    ensures { (i : ℕ) → i < 16 * blocks → slice_index result i ≡ stream_at (cipher aes.now.round_keys) i }
{
    let mut stream = [0; MAX_CONTENT_LEN];
    // Counted, since the number itself is enciphered; what is written through `as_chunks_mut` no proof knows.
    for n in 0..blocks {
        let block = aes.encrypt_block(headed(COUNTER_FLAGS, n + 1));
        stream[BLOCK * n..BLOCK * n + BLOCK].copy_from_slice(&block);
    }
    stream
}

// Writes the bytes, masked by the key stream, to the front of `out`. What was masked so is unmasked so.
pub(crate) fn mask(aes: &Aes256, bytes: &[u8], out: &mut [u8])
    requires few { length bytes.now ≤ MAX_CONTENT_LEN }
    requires room { length bytes.now ≤ length out.old }
    ensures { out.new ≡ fronted (masked (cipher aes.now.round_keys) bytes.now) out.old }
{
    let stream = key_stream(aes, (bytes.len() + BLOCK - 1) / BLOCK);
    // By index in `out`, which is longer; what is written through `iter_mut` no proof knows.
    for (i, byte) in bytes.iter().enumerate() {
        out[i] = *byte ^ stream[i];
    }
}
