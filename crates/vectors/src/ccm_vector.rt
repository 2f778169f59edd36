// A vector of CCM under derived keys.
use ccm::CcmScheme;
use sealing::{SealingScheme, TAG_LEN, WORKING_LEN};

// The longest sealed content.
const SEALED: usize = 80;

// A content, and what it is sealed to under a nonce.
#[derive(Drop)]
pub(crate) struct CcmVector {
    pub(crate) scheme: CcmScheme,
    pub(crate) nonce: [u8; 16],
    pub(crate) content: Vec<u8>,
    pub(crate) sealed: Vec<u8>,
}

impl CcmVector {
    fn seals(&self) -> bool {
        let mut working = [0; WORKING_LEN];
        let mut out = [0; SEALED];
        let len = self.content.len();
        if len > WORKING_LEN {
            return false;
        }
        working[0..len].copy_from_slice(&self.content);
        match self.scheme.seal(&self.nonce, len, &mut out, &mut working) {
            Ok(len) => len == self.sealed.len() && out.starts_with(&self.sealed),
            Err(_) => false,
        }
    }

    fn opens(&self) -> bool {
        let mut working = [0; WORKING_LEN];
        match self.scheme.open(&self.nonce, &self.sealed, &mut working) {
            Ok(Some(len)) => len == self.content.len() && working.starts_with(&self.content),
            _ => false,
        }
    }

    fn stays_shut(&self) -> bool {
        let mut working = [0; WORKING_LEN];
        let opened = self.scheme.open(&self.nonce, &self.sealed, &mut working);
        matches!(opened, Ok(None))
    }

    // Whether the content is sealed to these bytes, they open to it, and do not with a damaged first or last byte.
    pub(crate) fn holds(&mut self) -> bool {
        if self.sealed.len() < TAG_LEN {
            return false;
        }
        let last = self.sealed.len() - 1;
        let good = self.seals() && self.opens();
        self.sealed[0] ^= 1;
        let first = self.stays_shut();
        self.sealed[0] ^= 1;
        self.sealed[last] ^= 0x80;
        good && first && self.stays_shut()
    }
}
