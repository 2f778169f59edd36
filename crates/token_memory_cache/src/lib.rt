#![tactic(auto)]

mod cache;
mod laws;
mod order;
mod shelf;
#[cfg(test)]
mod tests;
mod text;

pub use cache::{
    DEFAULT_SERVER_NAMES, DEFAULT_TOKENS_PER_SERVER, MAX_SERVER_NAMES, MAX_TOKENS_PER_SERVER,
    MemoryCache, NewestFirstCache, TokenMemoryCache, a_cache_keeps_to_its_limits,
    clones_are_the_same, the_limits_are_those_of_the_rules,
};
pub use laws::{
    a_new_name_pushes_out_the_one_unused_longest, a_take_hands_out_the_newest,
    a_take_hands_out_the_oldest, a_token_comes_by_its_insert, a_token_goes_in_three_ways,
};
pub use order::{NewestFirst, OldestFirst, TakeOrder};
pub use shelf::{LentRecords, NameEntry};
pub use text::Text;
