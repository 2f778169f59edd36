ghost use Rattle.std.specs.Prelude.{◌≡◌, ◌<◌, true, [], vec_capacity, ◌&&◌, is_ok, nat_lt, MatchResult};
ghost use Rattle.answers.specs.declared.Refusal.TheVariants.{Capacity};
ghost use Rattle.filter.specs.Lists.{member, distinct};

mod filtering;

use answers::{Refusal, Refused};

/// A filter that is a plain list: each recording goes over all. It has as many places as its `Vec` has capacity.
#[derive(Drop)]
pub struct Few {
    held: Vec<u64>,
    ghost some: { 0 < vec_capacity held },
    ghost apart: { distinct held.items ≡ true },
}

impl Few {
    /// An empty filter in the memory of a `Vec` of some capacity; refused with 7 where it has none, and the `Vec` comes back.
    pub fn new(mut held: Vec<u64>) -> Result<Few, Refused<Vec<u64>>>
        ensures answer { is_ok result ≡ nat_lt 0 (vec_capacity held) }
        ensures cases { MatchResult result (λ s. (s.held.items ≡ []) × (vec_capacity s.held ≡ vec_capacity held)) (λ e. e ≡ record { refusal = Capacity; back = held }) }
    {
        if held.capacity() == 0 {
            return Err(Refused {
                refusal: Refusal::Capacity,
                back: held,
            });
        }
        held.clear();
        Ok(Few { held })
    }

    // Whether f is held.
    fn has(&self, f: u64) -> bool
        ensures { result ≡ member f self.now.held.items }
    {
        self.held.contains(&f)
    }
}
