//! The Bloom filter, and what a byte budget gives: its words, the sure count of a turning filter, and the number of hash
//! positions that suits.
//!
//! `Words` says what memory for the words owes: a filter stores a word only where a bit changes. The usual one is a `Vec<u64>`. No
//! call allocates, but `allocate_words`.
#![tactic(auto)]

mod bits;
mod bloom;
mod hash_count;
#[cfg(test)]
mod hash_counts;
mod laws;
mod sizes;
#[cfg(test)]
mod tests;
mod words;

pub use bloom::{BloomFilter, MAX_HASHES};
pub use hash_count::{half_the_budget_has_half_the_bits, optimal_k_num, optimal_k_num_by_half};
pub use laws::{
    a_call_stores_as_often_as_it_changes, a_vec_keeps_its_capacity,
    bloom_filters_answer_by_what_they_recorded,
};
pub use sizes::{
    MAX_BUDGET, allocate_words, bloom_words, sure_count, the_limits_are_those_of_the_rules,
};
pub use words::Words;
