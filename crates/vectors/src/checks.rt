// What each kind of vector says, and whether it holds.
use crate::ccm_vector::CcmVector;
use crate::words::{array, bytes};
use aes::Aes256;
use ccm::CcmScheme;
use sha256::HmacKey;
use stateless_reset::{BenchKey, RESET_TOKEN_SIZE, RESET_WORKING_LEN, ResetToken};
use std::alloc::Global;
use std::fmt;
use std::str::FromStr;
use thiserror::Error;

#[derive(Clone, Copy, PartialEq, Eq, PartialOrd, Ord)]
pub(crate) enum Group {
    Sha256,
    Hmac,
    Expand,
    Aes256,
    Ccm,
    Reset,
}

impl Group {
    pub(crate) const ALL: [Group; 6] = [
        Group::Sha256,
        Group::Hmac,
        Group::Expand,
        Group::Aes256,
        Group::Ccm,
        Group::Reset,
    ];
}

impl fmt::Display for Group {
    fn fmt<W: fmt::Write>(&self, f: &mut fmt::Formatter<W>) -> fmt::Result {
        f.write_str(match self {
            Group::Sha256 => "SHA-256, FIPS 180-4",
            Group::Hmac => "HMAC-SHA-256, RFC 4231",
            Group::Expand => "HKDF, one step of the expansion, RFC 5869",
            Group::Aes256 => "AES-256, FIPS 197 and SP 800-38A",
            Group::Ccm => "CCM under derived keys, content of 0 to 64 bytes",
            Group::Reset => "reset tokens, HMAC-SHA-256 and the bench key, ids of 0 to 20 bytes",
        })
    }
}

// A line whose first word names no group.
#[derive(Clone, Copy, Debug, Error)]
#[error("a line is of no kind")]
pub(crate) struct NoGroup;

impl FromStr for Group {
    type Err = NoGroup;

    fn from_str(word: &str) -> Result<Group, NoGroup> {
        match word {
            "sha256" => Ok(Group::Sha256),
            "hmac" => Ok(Group::Hmac),
            "expand" => Ok(Group::Expand),
            "aes256" => Ok(Group::Aes256),
            "ccm" => Ok(Group::Ccm),
            "reset" => Ok(Group::Reset),
            _ => Err(NoGroup),
        }
    }
}

// A key that reset tokens are made by.
#[derive(Clone, Copy)]
enum ResetKey {
    Hmac(HmacKey),
    Bench(BenchKey),
}

impl ResetKey {
    // Whether the token of an id under this key has these bytes.
    fn makes(&self, id: &[u8], token: [u8; RESET_TOKEN_SIZE]) -> bool {
        let mut working = [0xff; RESET_WORKING_LEN];
        let made = match self {
            ResetKey::Hmac(key) => ResetToken::new(key, id, &mut working),
            ResetKey::Bench(key) => ResetToken::new(key, id, &mut working),
        };
        made == Ok(ResetToken::from(token))
    }
}

// The group of a line's vector, and whether it holds.
pub(crate) fn check(heap: Global, line: &str) -> anyhow::Result<(Group, bool)> {
    let mut words = line.split(' ');
    let group = words.next().ok_or(NoGroup)?.parse()?;
    let holds = match group {
        Group::Sha256 => {
            let digest = sha256::digest(&bytes(heap, words.next())?);
            digest == array::<32>(heap, words.next())?
        }
        Group::Hmac => {
            let key = HmacKey::new(&bytes(heap, words.next())?);
            let signature = key.sign(&bytes(heap, words.next())?);
            signature.starts_with(&bytes(heap, words.next())?)
        }
        Group::Expand => {
            let key = HmacKey::new(&bytes(heap, words.next())?);
            let derived = key.expand(&bytes(heap, words.next())?);
            derived == array::<32>(heap, words.next())?
        }
        Group::Aes256 => {
            let aes = Aes256::new(&array(heap, words.next())?);
            let block = aes.encrypt_block(array(heap, words.next())?);
            block == array::<16>(heap, words.next())?
        }
        Group::Ccm => {
            let scheme = CcmScheme::new(&array(heap, words.next())?);
            let nonce = array(heap, words.next())?;
            let content = bytes(heap, words.next())?;
            let sealed = bytes(heap, words.next())?;
            CcmVector {
                scheme,
                nonce,
                content,
                sealed,
            }
            .holds()
        }
        Group::Reset => {
            let key = match words.next() {
                Some("hmac") => ResetKey::Hmac(HmacKey::new(&bytes(heap, words.next())?)),
                Some("bench") => ResetKey::Bench(BenchKey::new(array(heap, words.next())?)),
                _ => return Err(NoGroup.into()),
            };
            let id = bytes(heap, words.next())?;
            key.makes(&id, array(heap, words.next())?)
        }
    };
    Ok((group, holds))
}
