ghost use Rattle.std.specs.Prelude.{◌≡◌, ◌+◌, ◌/◌, ◌%◌, ◌≤◌, ◌++◌, length, take};
ghost use Rattle.sha256.specs.Digest.{padding, absorbed, bytes_of, digest_from, digest as digest_of};

use crate::block::{BLOCK, compress};
use crate::constants::INITIAL;
use std::array;

// The bytes of a message's length.
const LENGTH: usize = 8;

// The hash value after each whole block of the bytes.
pub(crate) fn absorb(value: [u32; 8], bytes: &[u8]) -> [u32; 8]
    ensures { result ≡ absorbed (length bytes.now / 64) bytes.now value }
{
    let (blocks, _) = bytes.as_chunks::<BLOCK>();
    blocks.iter().fold(value, compress)
}

fn to_bytes(value: [u32; 8]) -> [u8; 32]
    ensures { result ≡ bytes_of value }
{
    array::from_fn(|i| ((value[i / 4] >> (24 - 8 * (i % 4))) % 256) as u8)
}

// The last block or two of a message of `total` bytes, modulo 2^64: its tail and the padding, and where they end. There is
// no heap here, so the blocks stand in fixed memory with their length beside.
fn pad(tail: &[u8], total: u64) -> ([u8; 128], usize)
    requires short { length tail.now ≤ 64 }
    requires whole { length tail.now % 64 ≡ total % 64 }
    ensures bound { result.1 ≤ 128 }
    ensures laid { take result.1 result.0 ≡ tail.now ++ padding total }
{
    let len = tail.len();
    let end = (len + LENGTH) / BLOCK * BLOCK + BLOCK;
    let mut last = [0; 128];
    last[0..len].copy_from_slice(tail);
    last[len] = 0x80;
    last[end - LENGTH..end].copy_from_slice(&total.wrapping_mul(8).to_be_bytes());
    (last, end)
}

// The digest of a message of `total` bytes, modulo 2^64, of which the tail is left.
pub(crate) fn finish(value: [u32; 8], tail: &[u8], total: u64) -> [u8; 32]
    requires short { length tail.now ≤ 64 }
    requires whole { length tail.now % 64 ≡ total % 64 }
    ensures { result ≡ digest_from value total tail.now }
{
    let (last, end) = pad(tail, total);
    to_bytes(absorb(value, &last[..end]))
}

// The digest of a message that begins with `before` bytes, whole blocks, which led to the value.
pub(crate) fn digest_after(value: [u32; 8], before: u64, message: &[u8]) -> [u8; 32]
    requires { before % 64 ≡ 0 }
    ensures { result ≡ digest_from value (before + length message.now) message.now }
{
    let (_, tail) = message.as_chunks::<BLOCK>();
    let total = before.wrapping_add(message.len() as u64);
    finish(absorb(value, message), tail, total)
}

// SHA-256 of a message. (The standard has no messages of 2^61 bytes and more; their length counts modulo 2^61.)
pub fn digest(message: &[u8]) -> [u8; 32]
    ensures { result ≡ digest_of message.now }
{
    digest_after(INITIAL, 0, message)
}
