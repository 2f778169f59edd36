ghost use Rattle.std.specs.Prelude.{true};
ghost use Rattle.filter.specs.Sets.{set_means, SetRecords, SetEmpties};
ghost use Rattle.filter.specs.SetLaws.{set_recorded, set_emptied, set_appends, set_begins};
ghost use Rattle.std.proofs.Common.{rules};

use super::ExactSet;
use crate::{Filter, ListingFilter};
use answers::FilterCause;

impl Filter for ExactSet {
    ghost meaning = { set_means };

    ghost records = { SetRecords };

    ghost empties = { SetEmpties };

    ghost recorded = { set_recorded };

    ghost emptied = { set_emptied };

    fn record(&mut self, f: u64) -> Result<(), FilterCause> {
        if self.find(f) {
            return Err(FilterCause::Held);
        }
        let count = self.held.len();
        if count >= self.capacity as usize {
            return Err(FilterCause::Full);
        }
        let bucket = self.bucket(f);
        let earlier = self.heads[bucket];
        self.links.push_reserved(earlier);
        self.heads[bucket] = count as u32 + 1;
        self.held.push_reserved(f);
        Ok(())
    }

    fn empty(&mut self) {
        self.held.clear();
        self.links.clear();
        self.heads.fill(0);
    }
}

impl ListingFilter for ExactSet {
    ghost listed = { λ s. s.held.items };

    ghost lists = { λ _. true };

    ghost records_listed = { SetRecords };

    ghost empties_listed = { SetEmpties };

    ghost recorded_listed = { λ s s' f r w. w };

    ghost emptied_listed = { λ s s' w. w };

    ghost appends = { set_appends };

    ghost begins = { set_begins };

    ghost gone = { Prim.search rules };

    ghost once = { Prim.search rules };

    ghost just = { Prim.search rules };

    fn record_listed(&mut self, f: u64) -> Result<(), FilterCause> {
        self.record(f)
    }

    fn empty_listed(&mut self) {
        self.empty();
    }

    fn sure(&self) -> usize {
        self.capacity as usize - self.held.len()
    }

    fn told(&self) -> usize {
        self.held.len()
    }

    fn tell(&self, i: usize) -> Option<u64> {
        self.held.get(i).copied()
    }

    fn holds(&self, f: u64) -> bool {
        self.find(f)
    }
}
