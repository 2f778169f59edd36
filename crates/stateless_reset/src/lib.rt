#![tactic(auto)]
// Stateless resets (RFC 9000, section 10.3): the token that a unit makes for a connection id by a signing key, the same one
// again after a restart, and the table by which its peer finds that token at the end of a datagram.
ghost use Rattle.std.specs.Prelude.{◌≡◌};

mod bench;
mod constant_time;
mod guard;
mod hmac;
mod key;
mod laws;
mod table;
#[cfg(test)]
mod tests;
mod token;

pub use bench::BenchKey;
pub use constant_time::constant_time_eq;
pub use key::{SigningKey, write_signature};
pub use laws::{
    a_datagram_is_a_reset_just_if_its_token_was_given, a_restarted_unit_is_known,
    a_table_is_full_with_as_many_tokens_as_places, clones_are_the_same, equal_tokens_are_the_same,
};
pub use table::ResetTokenTable;
pub use token::ResetToken;

/// How many bytes a stateless reset token has.
pub const RESET_TOKEN_SIZE: usize = 16;

/// How many bytes the longest signature has.
pub const MAX_SIGNATURE_LEN: usize = 64;

/// How many working bytes making a token takes: the 96 of every scheme, and behind them 64 for a signature.
pub const RESET_WORKING_LEN: usize = 160;

/// How many bytes the shortest datagram has that can be a stateless reset.
pub const MIN_RESET_LEN: usize = 21;

/// The public constants are the numbers of the rules.
pub fn the_limits_are_those_of_the_rules()
    ensures token { RESET_TOKEN_SIZE ≡ 16 }
    ensures signature { MAX_SIGNATURE_LEN ≡ 64 }
    ensures working { RESET_WORKING_LEN ≡ 160 }
    ensures datagram { MIN_RESET_LEN ≡ 21 }
{}
