//! The cab's side: it stores the tokens that it is given, and takes one for each visit.
use anyhow::anyhow;
use std::alloc::Global;
use token_store::{MAX_STORED_LEN, TokenStore};

/// The name under which the cab keeps the unit's tokens.
const UNIT: &str = "unit-4.quay";

/// A cab with any store.
#[derive(Drop)]
pub(crate) struct Cab<T> {
    store: T,
    alloc: Global,
}

impl<T: TokenStore> Cab<T> {
    pub(crate) fn new(alloc: Global, store: T) -> Cab<T> {
        Cab { store, alloc }
    }

    /// Stores a token that the unit gave.
    pub(crate) fn keep(&mut self, rt: &HostRuntime, token: &[u8]) -> anyhow::Result<()> {
        if let Err(refusal) = self.store.insert(UNIT, token) {
            return Err(anyhow!("{refusal}"));
        }
        println!(rt; "  The cab stores it under the name {UNIT}.")?;
        Ok(())
    }

    /// Takes the oldest token that it has for the unit.
    pub(crate) fn bring(&mut self, rt: &HostRuntime) -> anyhow::Result<Option<Vec<u8>>> {
        let mut out = [0; MAX_STORED_LEN];
        let taken = match self.store.take(UNIT, &mut out) {
            Ok(taken) => taken,
            Err(refusal) => return Err(anyhow!("{refusal}")),
        };
        let Some(token) = taken.and_then(|len| out.get(..len)) else {
            println!(rt; "  The cab's store has no token for {UNIT}.")?;
            return Ok(None);
        };
        println!(rt;
            "  The cab takes a token of {} bytes from its store.",
            token.len()
        )?;
        let mut copy = Vec::new(self.alloc);
        copy.extend_from_slice(token)?;
        Ok(Some(copy))
    }
}
