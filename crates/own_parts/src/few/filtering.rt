ghost use Rattle.std.specs.Prelude.{true};
ghost use Rattle.own_parts.specs.Few.{few_means, FewRecords, FewEmpties};
ghost use Rattle.own_parts.specs.FewLaws.{few_recorded, few_emptied, few_appends, few_begins};
ghost use Rattle.std.proofs.Common.{rules};

use super::Few;
use answers::FilterCause;
use filter::{Filter, ListingFilter};

impl Filter for Few {
    ghost meaning = { few_means };

    ghost records = { FewRecords };

    ghost empties = { FewEmpties };

    ghost recorded = { few_recorded };

    ghost emptied = { few_emptied };

    fn record(&mut self, f: u64) -> Result<(), FilterCause> {
        if self.has(f) {
            return Err(FilterCause::Held);
        }
        if self.held.len() == self.held.capacity() {
            return Err(FilterCause::Full);
        }
        self.held.push_reserved(f);
        Ok(())
    }

    fn empty(&mut self) {
        self.held.clear();
    }
}

impl ListingFilter for Few {
    ghost listed = { λ s. s.held.items };

    ghost lists = { λ _. true };

    ghost records_listed = { FewRecords };

    ghost empties_listed = { FewEmpties };

    ghost recorded_listed = { λ s s' f r w. w };

    ghost emptied_listed = { λ s s' w. w };

    ghost appends = { few_appends };

    ghost begins = { few_begins };

    ghost gone = { Prim.search rules };

    ghost once = { Prim.search rules };

    ghost just = { Prim.search rules };

    fn record_listed(&mut self, f: u64) -> Result<(), FilterCause> {
        self.record(f)
    }

    fn empty_listed(&mut self) {
        self.empty();
    }

    fn sure(&self) -> usize {
        self.held.capacity() - self.held.len()
    }

    fn told(&self) -> usize {
        self.held.len()
    }

    fn tell(&self, i: usize) -> Option<u64> {
        self.held.get(i).copied()
    }
}
