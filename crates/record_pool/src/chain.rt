ghost use Rattle.std.specs.Prelude.{◌≡◌, ℕ, List, ◌∷◌, ◌==◌};
ghost use Rattle.record_pool.specs.declared.chain.Chain.{Chain};
ghost use Rattle.record_pool.specs.Chains.{empty_chain, Shared};

// A chain of records: the place of its first, or 0 where it is empty, as a record's link is, and how many there are.
#[derive(Clone, Copy)]
pub struct Chain {
    pub(crate) first: u32,
    pub(crate) count: u32,
}

impl Chain {
    // The empty chain: added to chains that share out the places, it leaves them so.
    pub const fn new() -> Chain
        ensures empty { result ≡ empty_chain }
        ensures shared { (n : ℕ) (nx : List ℕ) (free : Chain) (chains : List Chain) → Shared n nx (free ∷ chains) → Shared n nx (free ∷ result ∷ chains) }
    {
        Chain { first: 0, count: 0 }
    }

    // How many records it has.
    pub fn len(&self) -> u32
        ensures { result ≡ self.now.count }
    {
        self.count
    }

    pub fn is_empty(&self) -> bool
        ensures { result ≡ (self.now.count == 0) }
    {
        self.len() == 0
    }
}
