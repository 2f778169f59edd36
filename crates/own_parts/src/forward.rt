use answers::Refusal;
use token_store::TokenStore;

/// A store that hands every call on to the one in it, and means what that means. It needs no proof of its own.
pub struct Forward<T: TokenStore> {
    pub store: T,
}

impl<T: TokenStore> TokenStore for Forward<T> {
    ghost holds = { λ s. T.TokenStore.holds s.store };

    fn insert(&mut self, name: &str, token: &[u8]) -> Result<(), Refusal> {
        self.store.insert(name, token)
    }

    fn take(&mut self, name: &str, out: &mut [u8]) -> Result<Option<usize>, Refusal> {
        self.store.take(name, out)
    }
}
