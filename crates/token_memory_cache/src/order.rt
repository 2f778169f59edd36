ghost use Rattle.std.specs.Prelude.{◌≡◌, ℕ};
ghost use Rattle.std.proofs.Common.{rules, arith};
ghost use Rattle.token_memory_cache.specs.Orders.{Within, first, last};

/// The order in which a store hands out the tokens of a name.
pub trait TakeOrder {
    // of so many tokens, the position of the one that a take hands out, the oldest at 0
    ghost place: { ℕ → ℕ };

    /// The position of the token to hand out, of `count` that are held, the oldest at 0: below `count`, if that is above 0.
    fn place(count: u32) -> u32
        ensures { result ≡ place count };

    // where there are any, one of them
    ghost within: { Within place };
}

/// Hands out the token that has been held longest.
#[derive(Clone, Copy)]
pub struct OldestFirst;

impl TakeOrder for OldestFirst {
    ghost place = { first };

    ghost within = { Prim.search rules };

    fn place(_count: u32) -> u32 {
        0
    }
}

/// Hands out the token that came last.
#[derive(Clone, Copy)]
pub struct NewestFirst;

impl TakeOrder for NewestFirst {
    ghost place = { last };

    ghost within = { Prim.search rules };

    fn place(count: u32) -> u32 {
        count.saturating_sub(1)
    }
}
