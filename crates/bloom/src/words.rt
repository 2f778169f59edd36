ghost use Rattle.std.specs.Prelude.{◌≡◌, ◌≢◌, ℕ, ◌<◌, ◌≤◌, List, length, slice_index, slice_set, vec_capacity};
ghost use Rattle.bloom.specs.Stores.{Clears};

/// Memory that holds words of 64 bits, and is written to as little as can be: a store always alters a word.
pub trait Words {
    // what stands there
    ghost words: { Self → List ℕ };

    // its own full account of a store: at which place, and which word
    ghost stores: { Self → ℕ → ℕ → Self → Type 0 };

    /// How many words there are.
    fn count(&self) -> usize
        ensures { result ≡ length (words self.now) };

    /// The word at a place, from 0.
    fn word(&self, at: usize) -> u64
        requires { at < length (words self.now) }
        ensures { result ≡ slice_index (words self.now) at };

    /// Has another word stand at a place than the one that stands there. Nothing else writes.
    fn store(&mut self, at: usize, word: u64)
        requires within { at < length (words self.old) }
        requires differs { slice_index (words self.old) at ≢ word }
        ensures { stores self.old at word self.new };

    ghost stored: { (s s' : Self) (at word : ℕ) → stores s at word s' → words s' ≡ slice_set (words s) at word };
}

/// The usual memory: the words that a `Vec` has. A store asks for no memory, and gives none back.
impl Words for Vec<u64> {
    ghost words = { λ v. v.items };

    ghost stores = { λ v at word v'. (v'.items ≡ slice_set v.items at word) × (vec_capacity v' ≡ vec_capacity v) };

    ghost stored = { λ _ _ _ _ s. s.0 };

    fn count(&self) -> usize {
        self.len()
    }

    fn word(&self, at: usize) -> u64 {
        self[at]
    }

    fn store(&mut self, at: usize, word: u64) {
        self[at] = word;
    }
}

// Has the first words be zero: a word is stored where another one stands.
pub(crate) fn clear<W: Words>(memory: &mut W, count: usize)
    requires { count ≤ length (W.words memory.old) }
    ensures { Clears W.stores W.words count memory.old memory.new }
{
    for at in 0..count {
        if memory.word(at) != 0 {
            memory.store(at, 0);
        }
    }
}
