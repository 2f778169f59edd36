#![tactic(auto)]
// Small parts put under the library's interfaces as a buyer would, of another kind than its own. docs/OWN-PARTS.md goes
// through them.
mod banks;
mod clients;
mod derived;
mod few;
mod forward;
mod pairs;
mod shift;
mod slot;
#[cfg(test)]
mod tests;

pub use banks::Banks;
pub use clients::{Guest, issue_and_admit, serve, serve_all};
pub use derived::DerivingKey;
pub use few::Few;
pub use forward::Forward;
pub use pairs::{Pair, PairLog};
pub use shift::Shift;
pub use slot::OneToken;
