ghost use Rattle.std.specs.Prelude.{◌≡◌, slice_set};
ghost use Rattle.own_parts.specs.Banks.{banked};

use bloom::Words;

/// Memory for the words of a Bloom filter that lies in two banks, one after the other.
#[derive(Drop)]
pub struct Banks {
    pub low: Vec<u64>,
    pub high: Vec<u64>,
}

impl Words for Banks {
    ghost words = { banked };

    ghost stores = { λ b at word b'. banked b' ≡ slice_set (banked b) at word };

    ghost stored = { λ _ _ _ _ s. s };

    fn count(&self) -> usize {
        self.low.len() + self.high.len()
    }

    fn word(&self, at: usize) -> u64 {
        let edge = self.low.len();
        if at < edge {
            self.low[at]
        } else {
            self.high[at - edge]
        }
    }

    fn store(&mut self, at: usize, word: u64) {
        let edge = self.low.len();
        if at < edge {
            self.low[at] = word;
        } else {
            self.high[at - edge] = word;
        }
    }
}
