ghost use Rattle.std.specs.Prelude.{◌≡◌, ℕ, ◌+◌, ◌*◌, ◌%◌, ◌^◌, ◌<◌, ◌≤◌, ◌∷◌, [], length, MatchOption};
ghost use Rattle.std.specs.Iterator.{at_most};
ghost use Rattle.bloom.specs.Bits.{step as step_of, bit, ahead, all_set};
ghost use Rattle.bloom.specs.Stores.{SetsBit, Sets};

use crate::words::Words;

/// How many bits a word has: a position is a word and a bit in it.
pub(crate) const WORD_BITS: u64 = 64;

// Positions of a fingerprint that are still to come.
#[derive(Drop)]
pub struct Positions {
    at: u64,
    step: u64,
    bits: u64,
    left: u32,
    ghost inside: { at < bits },
    ghost short: { step < bits },
    ghost few: { bits < 2 ^ 63 },
}

impl Positions {
    // The k positions of f.
    pub fn of(f: u64, bits: u64, k: u32) -> Positions
        requires { (2 ≤ bits) × (bits < 2 ^ 63) }
        ensures bits { result.bits ≡ bits }
        ensures all { ahead result.bits result.step result.at result.left ≡ ahead bits (step_of bits f) (f % bits) k }
    {
        Positions {
            at: f % bits,
            step: step(bits, f),
            bits,
            left: k,
        }
    }
}

impl Iterator for Positions {
    type Item = u64;

    ghost next_gives = { λ s r t. (t.bits ≡ s.bits) × MatchOption r ((ahead s.bits s.step s.at s.left ≡ []) × (t ≡ s)) (λ at. (at < s.bits) × (ahead s.bits s.step s.at s.left ≡ at ∷ ahead t.bits t.step t.at t.left)) };

    ghost remaining = { λ s. at_most s.left };

    fn next(&mut self) -> Option<u64> {
        if self.left == 0 {
            return None;
        }
        self.left -= 1;
        let at = self.at;
        let sum = at + self.step;
        self.at = if sum < self.bits {
            sum
        } else {
            sum - self.bits
        };
        Some(at)
    }
}

// The step from one position of a fingerprint to the next.
fn step(bits: u64, f: u64) -> u64
    requires { (2 ≤ bits) × (bits < 2 ^ 63) }
    ensures value { result ≡ step_of bits f }
    ensures bound { result < bits }
{
    1 + (f >> 32) % (bits - 1)
}

fn test_bit<W: Words>(memory: &W, at: u64) -> bool
    requires { at < WORD_BITS * length (W.words memory.now) }
    ensures { result ≡ bit (W.words memory.now) at }
{
    (memory.word((at / WORD_BITS) as usize) >> (at % WORD_BITS)) % 2 == 1
}

fn set_bit<W: Words>(memory: &mut W, at: u64)
    requires { at < WORD_BITS * length (W.words memory.old) }
    ensures { SetsBit W.stores W.words at memory.old memory.new }
{
    let place = (at / WORD_BITS) as usize;
    let word = memory.word(place);
    let with = word | 1 << (at % WORD_BITS);
    if with != word {
        memory.store(place, with);
    }
}

// Whether the bits at the k positions of f are all set. A loop, as a closure for `all` could not show that a position is below
// the number of bits.
pub(crate) fn all_set<W: Words>(memory: &W, bits: u64, f: u64, k: u32) -> bool
    requires some { (2 ≤ bits) × (bits < 2 ^ 63) }
    requires within { bits ≤ WORD_BITS * length (W.words memory.now) }
    ensures { result ≡ all_set (W.words memory.now) bits f k }
{
    for at in Positions::of(f, bits, k) {
        if !test_bit(memory, at) {
            return false;
        }
    }
    true
}

// Sets the bits at the k positions of f.
pub(crate) fn set_all<W: Words>(memory: &mut W, bits: u64, f: u64, k: u32)
    requires some { (2 ≤ bits) × (bits < 2 ^ 63) }
    requires within { bits ≤ WORD_BITS * length (W.words memory.old) }
    ensures { Sets W.stores W.words bits f k memory.old memory.new }
{
    for at in Positions::of(f, bits, k) {
        set_bit(memory, at);
    }
}
