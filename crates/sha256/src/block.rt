ghost use Rattle.std.specs.Prelude.{◌≡◌, ◌/◌, ◌^◌, ◌<◌, ◌≤◌, [], ◌∷◌, bit_xor, replicate};
ghost use Rattle.sha256.specs.Words.{Ch, Maj, rotr};
ghost use Rattle.sha256.specs.Block.{words, next_word, extended, stepped, working, rounds, compressed};

use crate::constants::round_constant;
use std::array;

// The bytes of a block.
pub(crate) const BLOCK: usize = 64;

// The eight working variables.
#[derive(Clone, Copy)]
pub(crate) struct Work {
    a: u32,
    b: u32,
    c: u32,
    d: u32,
    e: u32,
    f: u32,
    g: u32,
    h: u32,
}

impl From<[u32; 8]> for Work {
    ghost from_gives = { λ value s. s ≡ working value };

    fn from(value: [u32; 8]) -> Work {
        let [a, b, c, d, e, f, g, h] = value;
        Work {
            a,
            b,
            c,
            d,
            e,
            f,
            g,
            h,
        }
    }
}

impl From<Work> for [u32; 8] {
    ghost from_gives = { λ s value. value ≡ s.a ∷ s.b ∷ s.c ∷ s.d ∷ s.e ∷ s.f ∷ s.g ∷ s.h ∷ [] };

    fn from(s: Work) -> [u32; 8] {
        [s.a, s.b, s.c, s.d, s.e, s.f, s.g, s.h]
    }
}

fn choose(x: u32, y: u32, z: u32) -> u32
    ensures { result ≡ Ch x y z }
{
    (x & y) ^ (!x & z)
}

fn majority(x: u32, y: u32, z: u32) -> u32
    ensures { result ≡ Maj x y z }
{
    (x & y) ^ (x & z) ^ (y & z)
}

fn big_sigma<const A: u32, const B: u32, const C: u32>(x: u32) -> u32
    requires { (0 < A) × (A < 32) × (0 < B) × (B < 32) × (0 < C) × (C < 32) }
    ensures { result ≡ bit_xor (bit_xor (rotr A x) (rotr B x)) (rotr C x) }
{
    x.rotate_right(A) ^ x.rotate_right(B) ^ x.rotate_right(C)
}

fn small_sigma<const A: u32, const B: u32, const C: u32>(x: u32) -> u32
    requires { (0 < A) × (A < 32) × (0 < B) × (B < 32) × (0 < C) × (C < 32) }
    ensures { result ≡ bit_xor (bit_xor (rotr A x) (rotr B x)) (x / 2 ^ C) }
{
    x.rotate_right(A) ^ x.rotate_right(B) ^ (x >> C)
}

// The block's sixteen words, and zeros for the words to come.
fn load(block: &[u8; BLOCK]) -> [u32; 64]
    ensures { result ≡ words 16 block.now (replicate 64 0) }
{
    let mut w = [0; 64];
    // By index in `w`, which is longer; what is written through `iter_mut` no proof knows.
    for (i, bytes) in block.as_chunks::<4>().0.iter().enumerate() {
        w[i] = u32::from_be_bytes(*bytes);
    }
    w
}

fn next_word(w: &[u32; 64], t: usize) -> u32
    requires { (16 ≤ t) × (t < 64) }
    ensures { result ≡ next_word w.now t }
{
    small_sigma::<17, 19, 10>(w[t - 2])
        .wrapping_add(w[t - 7])
        .wrapping_add(small_sigma::<7, 18, 3>(w[t - 15]))
        .wrapping_add(w[t - 16])
}

fn extend(words: [u32; 64]) -> [u32; 64]
    ensures { result ≡ extended 48 words }
{
    let mut w = words;
    // Each word is made of four before it in the same array, so no chain over its elements is plainer.
    for t in 16..64 {
        w[t] = next_word(&w, t);
    }
    w
}

fn step(s: Work, k: u32, w: u32) -> Work
    ensures { result ≡ stepped s k w }
{
    let t1 = s
        .h
        .wrapping_add(big_sigma::<6, 11, 25>(s.e))
        .wrapping_add(choose(s.e, s.f, s.g))
        .wrapping_add(k)
        .wrapping_add(w);
    let t2 = big_sigma::<2, 13, 22>(s.a).wrapping_add(majority(s.a, s.b, s.c));
    Work {
        a: t1.wrapping_add(t2),
        b: s.a,
        c: s.b,
        d: s.c,
        e: s.d.wrapping_add(t1),
        f: s.e,
        g: s.f,
        h: s.g,
    }
}

fn run(start: Work, w: &[u32; 64]) -> Work
    ensures { result ≡ rounds 64 w.now start }
{
    let mut s = start;
    // The index is the round's, by which its constant is asked for.
    for (i, word) in w.iter().enumerate() {
        s = step(s, round_constant(i), *word);
    }
    s
}

// The hash value after one more block.
pub(crate) fn compress(value: [u32; 8], block: &[u8; BLOCK]) -> [u32; 8]
    ensures { result ≡ compressed value block.now }
{
    let w = extend(load(block));
    let worked: [u32; 8] = run(Work::from(value), &w).into();
    array::from_fn(|i| value[i].wrapping_add(worked[i]))
}
