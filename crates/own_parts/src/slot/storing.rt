ghost use Rattle.token_store.specs.Laws.{HoldsNothing};
ghost use Rattle.own_parts.specs.Slots.{slot_holds};

use super::OneToken;
use answers::Refusal;
use token_store::{MAX_NAME_LEN, MAX_STORED_LEN, TokenStore};

// What `OneToken` holds is said in a file of specs/ that names the struct, so what speaks of it stands apart from the struct.
impl OneToken {
    /// A store without a token, in the memory of two `Vec`s.
    pub fn new(name: Vec<u8>, mut token: Vec<u8>) -> OneToken
        ensures { HoldsNothing slot_holds result }
    {
        token.clear();
        OneToken {
            name,
            token,
            filled: false,
        }
    }
}

impl TokenStore for OneToken {
    ghost holds = { slot_holds };

    fn insert(&mut self, name: &str, token: &[u8]) -> Result<(), Refusal> {
        if name.len() > MAX_NAME_LEN || token.len() > MAX_STORED_LEN {
            return Err(Refusal::LongEntry);
        }
        self.keep(name.as_bytes(), token);
        Ok(())
    }

    fn take(&mut self, name: &str, out: &mut [u8]) -> Result<Option<usize>, Refusal> {
        if out.len() < MAX_STORED_LEN {
            return Err(Refusal::SmallBuffer);
        }
        if name.len() > MAX_NAME_LEN {
            return Err(Refusal::LongEntry);
        }
        if !self.filled || self.name.as_slice() != name.as_bytes() {
            return Ok(None);
        }
        self.filled = false;
        let len = self.token.len();
        out[..len].copy_from_slice(&self.token);
        Ok(Some(len))
    }
}
