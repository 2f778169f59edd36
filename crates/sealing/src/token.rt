use wire::TokenPayload;

// A drawn nonce: 128 random bits for one token. It cannot be copied, and writing a token uses it up.
#[derive(Drop)]
pub struct Nonce {
    pub(crate) low: u64,
    pub(crate) high: u64,
}

// What a token says: its content, and the low half of its nonce.
#[derive(Clone, Copy, Debug, PartialEq, Eq)]
pub struct Token {
    pub payload: TokenPayload,
    pub low: u64,
}
