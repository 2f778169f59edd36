#![tactic(auto)]
// Paths to clients, each with what came and what was sent there: until a client's address is validated, a host may send there at
// most three times as many bytes as came.

mod laws;
mod meter;
mod table;
#[cfg(test)]
mod tests;

pub use laws::{
    an_unvalidated_path_is_never_sent_too_much, clones_are_the_same,
    grants_and_closings_go_by_what_was_done, the_limits_are_those_of_the_rules,
};
pub use meter::{
    AMPLIFICATION_FACTOR, MAX_COUNTED_BYTES, MAX_GRANTED_BYTES, MAX_OPEN_GRANTS, Meter,
};
pub use table::{Ended, Grant, Path, PathTable};
