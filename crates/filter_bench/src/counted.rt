ghost use Rattle.std.specs.Prelude.{◌≡◌, ◌+◌, ◌%◌, ◌^◌, slice_set};

use bloom::Words;

// Memory that counts its stores.
#[derive(Drop)]
pub struct Counted {
    held: Vec<u64>,
    stores: u64,
}

impl Counted {
    pub fn new(held: Vec<u64>) -> Counted {
        Counted { held, stores: 0 }
    }

    // How many stores there were since the last such call.
    pub fn taken_since(&mut self) -> u64 {
        let stores = self.stores;
        self.stores = 0;
        stores
    }
}

impl Words for Counted {
    ghost words = { λ c. c.held.items };

    ghost stores = { λ c at word c'. (c'.held.items ≡ slice_set c.held.items at word) × (c'.stores ≡ (c.stores + 1) % 2 ^ 64) };

    ghost stored = { λ _ _ _ _ s. s.0 };

    fn count(&self) -> usize {
        self.held.len()
    }

    fn word(&self, at: usize) -> u64 {
        self.held[at]
    }

    fn store(&mut self, at: usize, word: u64) {
        self.held[at] = word;
        self.stores = self.stores.wrapping_add(1);
    }
}
