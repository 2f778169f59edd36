ghost use Rattle.bloom.specs.Means.{bloom_means, BloomRecords, BloomEmpties};
ghost use Rattle.bloom.specs.BloomLaws.{bloom_recorded, bloom_emptied};

use super::BloomFilter;
use crate::bits::{all_set, set_all};
use crate::words::{Words, clear};
use answers::FilterCause;
use filter::Filter;

impl<W: Words> Filter for BloomFilter<W> {
    ghost meaning = { bloom_means };

    ghost records = { BloomRecords };

    ghost empties = { BloomEmpties };

    ghost recorded = { bloom_recorded };

    ghost emptied = { bloom_emptied };

    fn record(&mut self, f: u64) -> Result<(), FilterCause> {
        let bits = self.bits();
        if all_set(&self.memory, bits, f, self.k) {
            return Err(FilterCause::Held);
        }
        set_all(&mut self.memory, bits, f, self.k);
        Ok(())
    }

    fn empty(&mut self) {
        clear(&mut self.memory, self.count);
    }
}
