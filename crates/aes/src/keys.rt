// The expansion of a key.
ghost use Rattle.std.specs.Prelude.{◌≡◌, ◌<◌, ◌≤◌};
ghost use Rattle.aes.specs.Keys.{sub_word, temp as temp_of, key_expansion};

use crate::tables::substitute;

// The words of a key of 32 bytes, and the words of all round keys.
const KEY_WORDS: usize = 8;

pub const WORDS: usize = 60;

// Of every eight words, the first takes a substitution and so does the one at this place.
const MIDDLE: usize = 4;

fn sub_word(word: u32) -> u32
    ensures { result ≡ sub_word word }
{
    u32::from_be_bytes(word.to_be_bytes().map(substitute))
}

// What word i takes from the word before it.
fn temp(words: &[u32; WORDS], i: usize) -> u32
    requires { (8 ≤ i) × (i < 60) }
    ensures { result ≡ temp_of words.now i }
{
    let before = words[i - 1];
    match i % KEY_WORDS {
        0 => sub_word(before.rotate_left(8)) ^ (1 << (i / KEY_WORDS + 23)),
        MIDDLE => sub_word(before),
        _ => before,
    }
}

pub fn expand(key: &[u8; 32]) -> [u32; WORDS]
    ensures { result ≡ key_expansion key.now }
{
    let mut words = [0; WORDS];
    // By index in `words`, which is longer; what is written through `iter_mut` no proof knows.
    for (i, bytes) in key.as_chunks::<4>().0.iter().enumerate() {
        words[i] = u32::from_be_bytes(*bytes);
    }
    // Each word is made of two before it in the same array, so no chain over its elements is plainer.
    for i in KEY_WORDS..WORDS {
        words[i] = words[i - KEY_WORDS] ^ temp(&words, i);
    }
    words
}
