ghost use Rattle.std.specs.Iterator.{YieldsFirstRef, item_count};
ghost use Rattle.record_pool.specs.Items.{items_left};

use crate::chain::Chain;
use crate::memory::index_of;
use crate::record::Record;

// The items of a chain that are still to come.
#[derive(Drop)]
pub struct Items<'a, T> {
    pub(crate) records: &'a [Record<T>],
    pub(crate) left: Chain,
}

impl<'a, T: Copy> Iterator for Items<'a, T> {
    type Item = &'a T;

    ghost next_gives = { YieldsFirstRef items_left };

    ghost remaining = { item_count items_left };

    fn next(&mut self) -> Option<&'a T> {
        if self.left.count == 0 {
            return None;
        }
        let i = index_of(self.records.len(), self.left.first)?;
        let record = &self.records[i];
        self.left.first = record.next;
        self.left.count -= 1;
        Some(&record.item)
    }
}
