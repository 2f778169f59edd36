#![tactic(auto)]
// A client's store of the tokens it was given.
ghost use Rattle.std.specs.Prelude.{◌≡◌, false, []};
ghost use Rattle.answers.specs.Sameness.{ClonesAreTheSame, ClonesNeverFail};
ghost use Rattle.token_store.specs.Store.{Holds, Stores, Takes};
ghost use Rattle.token_store.specs.Laws.{HoldsNothing, EveryCallAdds, ATokenIsTakenOnlyAsOftenAsStored};

use answers::Refusal;

// The longest name and the longest token that a store takes; a take asks for room for such a token.
pub const MAX_NAME_LEN: usize = 255;

pub const MAX_STORED_LEN: usize = 512;

// Keeps the tokens that servers gave, for later connections to them. It means, for each server name, a set of tokens.
pub trait TokenStore {
    // under a name, whether a token is held
    ghost holds: { Self → Holds };

    // Stores a token under a name. It may drop any token, and adds at most this one.
    fn insert(&mut self, name: &str, token: &[u8]) -> Result<(), Refusal>
        ensures { Stores name.now token.now (holds self.old) (holds self.new) result };

    // Takes a token that is held under a name into the front of a buffer, and answers its length; or answers none.
    fn take(&mut self, name: &str, out: &mut [u8]) -> Result<Option<usize>, Refusal>
        ensures { Takes name.now out.old out.new (holds self.old) (holds self.new) result };
}

/// Keeps nothing: every connection starts without a token.
#[derive(Clone, Copy, Debug, Default)]
pub struct NoneTokenStore;

impl TokenStore for NoneTokenStore {
    ghost holds = { λ s n t. false };

    fn insert(&mut self, name: &str, token: &[u8]) -> Result<(), Refusal> {
        if name.len() > MAX_NAME_LEN || token.len() > MAX_STORED_LEN {
            return Err(Refusal::LongEntry);
        }
        Ok(())
    }

    fn take(&mut self, name: &str, out: &mut [u8]) -> Result<Option<usize>, Refusal> {
        if out.len() < MAX_STORED_LEN {
            return Err(Refusal::SmallBuffer);
        }
        if name.len() > MAX_NAME_LEN {
            return Err(Refusal::LongEntry);
        }
        Ok(None)
    }
}

/// A store that keeps nothing holds nothing.
pub fn a_store_that_keeps_nothing_holds_nothing(store: &NoneTokenStore)
    ensures { HoldsNothing (⟦<NoneTokenStore as TokenStore>⟧.holds) store.now }
{}

/// What a store owes of a call makes that call part of every succession. Of any store that held nothing: a token that is handed
/// out under a name was stored there before, and again between any two calls that hand it out.
pub fn a_token_is_taken_only_as_often_as_stored<T: TokenStore>(store: &T)
    ensures calls { EveryCallAdds T.TokenStore.holds }
    ensures taken { ATokenIsTakenOnlyAsOftenAsStored T.TokenStore.holds store.now }
{}

// The constants are those of the rules.
pub fn the_limits_are_those_of_the_rules()
    ensures { (MAX_NAME_LEN ≡ 255) × (MAX_STORED_LEN ≡ 512) }
{}

// A clone of the store that keeps nothing is that store.
pub fn clones_are_the_same()
    ensures same { ClonesAreTheSame (⟦<NoneTokenStore as Clone>⟧.is_clone) }
    ensures come { ClonesNeverFail (⟦<NoneTokenStore as Clone>⟧.is_infallible) }
{}
