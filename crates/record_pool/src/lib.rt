#![tactic(auto)]
// A pool of chained records over memory that the caller lends.
mod chain;
mod items;
mod laws;
mod memory;
mod pool;
mod record;
#[cfg(test)]
mod tests;

pub use chain::Chain;
pub use items::Items;
pub use laws::{
    an_empty_chain_can_go, chains_have_no_order, clones_are_the_same, every_chain_ends_in_zero,
    every_record_is_in_one_chain, no_record_is_lost, the_records_hold_what_the_chains_do,
};
pub use pool::Pool;
pub use record::Record;
