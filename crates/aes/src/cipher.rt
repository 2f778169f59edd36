// The cipher: each step takes the state of 16 bytes and gives it back.
ghost use Rattle.std.specs.Prelude.{◌≡◌};
ghost use Rattle.aes.specs.Field.{sub};
ghost use Rattle.aes.specs.Words.{four, bytes_of};
ghost use Rattle.aes.specs.Cipher.{mixed, sub_bytes, shift_rows, mix_columns, round_key, add_round_key, round as round_of, cipher};
ghost use Rattle.aes.specs.Keys.{key_expansion};

use crate::keys::{WORDS, expand};
use crate::tables::{spread, substitute};
use std::array;

const ROUNDS: usize = 14;

// The column of four bytes, substituted and mixed.
fn column(a: u8, b: u8, c: u8, d: u8) -> u32
    ensures { bytes_of result ≡ four (mixed (sub a) (sub b) (sub c) (sub d)) }
{
    spread(a) ^ spread(b).rotate_right(8) ^ spread(c).rotate_right(16) ^ spread(d).rotate_right(24)
}

// The state of four columns.
fn joined(columns: [u32; 4]) -> [u8; 16]
    ensures { result ≡ round_key columns 0 }
{
    array::from_fn(|i| columns[i / 4].to_be_bytes()[i % 4])
}

// SubBytes, then ShiftRows: row r of a column comes from the column r places to the right, five bytes on for each row.
fn substituted(state: [u8; 16]) -> [u8; 16]
    ensures { result ≡ shift_rows (sub_bytes state) }
{
    array::from_fn(|i| substitute(state[5 * i % 16]))
}

// SubBytes, ShiftRows, then MixColumns. The four columns are written out, as the standard draws the rows.
fn mix(state: [u8; 16]) -> [u8; 16]
    ensures { result ≡ mix_columns (shift_rows (sub_bytes state)) }
{
    joined([
        column(state[0], state[5], state[10], state[15]),
        column(state[4], state[9], state[14], state[3]),
        column(state[8], state[13], state[2], state[7]),
        column(state[12], state[1], state[6], state[11]),
    ])
}

// AddRoundKey.
fn add_round_key(state: [u8; 16], key: &[u32; 4]) -> [u8; 16]
    ensures { result ≡ add_round_key key.now 0 state }
{
    let key = joined(*key);
    array::from_fn(|i| state[i] ^ key[i])
}

fn round(state: [u8; 16], key: &[u32; 4]) -> [u8; 16]
    ensures { result ≡ round_of key.now 0 state }
{
    add_round_key(mix(state), key)
}

// A key of 256 bits, expanded.
#[derive(Drop)]
pub struct Aes256 {
    round_keys: [u32; WORDS],
}

impl Aes256 {
    // Expands a key. Nothing but the round keys is kept.
    pub fn new(key: &[u8; 32]) -> Aes256
        ensures { result ≡ record { round_keys = key_expansion key.now } }
    {
        Aes256 {
            round_keys: expand(key),
        }
    }

    // The cipher of one block.
    pub fn encrypt_block(&self, block: [u8; 16]) -> [u8; 16]
        ensures { result ≡ cipher self.now.round_keys block }
    {
        let (keys, _) = self.round_keys.as_chunks::<4>();
        let mixed = keys[1..ROUNDS]
            .iter()
            .fold(add_round_key(block, &keys[0]), round);
        add_round_key(substituted(mixed), &keys[ROUNDS])
    }
}
