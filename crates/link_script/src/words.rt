// The words of a line, one after the other.
use hex_text::read_hex;
use std::alloc::{AllocError, Global};
use std::str::FromStr;
use thiserror::Error;
use wire::IpAddr;

// The longest buffer that a line can ask for.
pub(crate) const MOST: usize = 4096;

// Why a line is not run.
#[derive(Clone, Copy, PartialEq, Eq, Debug, Error)]
pub(crate) enum Bad {
    // what is wrong with it
    #[error("{0}")]
    Line(&'static str),
    #[error("no memory")]
    Memory(#[from] AllocError),
}

// The words that are left of a line, single spaces between them, and the heap for what they say. A line has at least one word,
// which may be empty.
#[derive(Clone, Copy)]
pub(crate) struct Words<'a> {
    heap: Global,
    left: Option<&'a str>,
}

impl<'a> Words<'a> {
    pub(crate) fn new(heap: Global, line: &'a str) -> Words<'a> {
        Words {
            heap,
            left: Some(line),
        }
    }

    pub(crate) fn next(&mut self) -> Result<&'a str, Bad> {
        let Some(left) = self.left else {
            return Err(Bad::Line("a word is missing"));
        };
        match left.split_once(' ') {
            Some((word, rest)) => {
                self.left = Some(rest);
                Ok(word)
            }
            None => {
                self.left = None;
                Ok(left)
            }
        }
    }

    pub(crate) fn end(&self) -> Result<(), Bad> {
        if self.left.is_some() {
            return Err(Bad::Line("a word too many"));
        }
        Ok(())
    }

    // A word that is a number of this type.
    fn parsed<T: FromStr + Drop>(&mut self, otherwise: &'static str) -> Result<T, Bad>
    where
        T::Err: Drop,
    {
        plain(self.next()?).ok_or(Bad::Line(otherwise))
    }

    pub(crate) fn number<T: FromStr + Drop>(&mut self) -> Result<T, Bad>
    where
        T::Err: Drop,
    {
        self.parsed("not a number")
    }

    pub(crate) fn port(&mut self) -> Result<u16, Bad> {
        self.parsed("not a port")
    }

    // A number below another one.
    pub(crate) fn below(&mut self, end: usize, otherwise: &'static str) -> Result<usize, Bad> {
        let number = self.parsed(otherwise)?;
        if number >= end {
            return Err(Bad::Line(otherwise));
        }
        Ok(number)
    }

    // Bytes in hex, `-` for none.
    pub(crate) fn bytes(&mut self) -> Result<Vec<u8>, Bad> {
        let word = self.next()?;
        if word == "-" {
            return Ok(Vec::new(self.heap));
        }
        read_hex(self.heap, word.as_bytes())?.ok_or(Bad::Line("not in hex"))
    }

    // Just so many bytes.
    pub(crate) fn array<const N: usize>(&mut self) -> Result<[u8; N], Bad> {
        let bytes = self.bytes()?;
        exact(&bytes).ok_or(Bad::Line("another number of bytes"))
    }

    // A name, `-` for the empty one.
    pub(crate) fn name(&mut self) -> Result<&'a str, Bad> {
        let word = self.next()?;
        Ok(if word == "-" { "" } else { word })
    }

    // A dotted quad, or 32 hex digits.
    pub(crate) fn ip(&mut self) -> Result<IpAddr, Bad> {
        let word = self.next()?;
        let ip = if word.contains('.') {
            quad(word).map(IpAddr::V4)
        } else {
            match read_hex(self.heap, word.as_bytes())? {
                Some(bytes) => exact(&bytes).map(IpAddr::V6),
                None => None,
            }
        };
        ip.ok_or(Bad::Line("not an IP"))
    }

    // Passes over the next word if it is this one, and tells whether it was.
    pub(crate) fn skip(&mut self, word: &str) -> bool {
        let mut ahead = *self;
        let found = ahead.next() == Ok(word);
        if found {
            *self = ahead;
        }
        found
    }

    // The length of a buffer after its word, or the usual one where the word is not there.
    pub(crate) fn length(&mut self, word: &str, usual: usize) -> Result<usize, Bad> {
        if !self.skip(word) {
            return Ok(usual);
        }
        let length = self.number::<u32>()? as usize;
        if length > MOST {
            return Err(Bad::Line("a buffer too long"));
        }
        Ok(length)
    }
}

// Just so many bytes.
fn exact<const N: usize>(bytes: &[u8]) -> Option<[u8; N]> {
    bytes.as_array().copied()
}

// A number in decimal, without a sign and without a needless zero.
fn plain<T: FromStr + Drop>(word: &str) -> Option<T>
where
    T::Err: Drop,
{
    match word.as_bytes() {
        [b'0'] | [b'1'..=b'9', ..] => word.parse().ok(),
        _ => None,
    }
}

// Four numbers of a byte each, with dots between them.
fn quad(word: &str) -> Option<[u8; 4]> {
    let mut parts = word.split('.');
    let mut octets = [0; 4];
    for octet in octets.iter_mut() {
        *octet = plain(parts.next()?)?;
    }
    match parts.next() {
        Some(_) => None,
        None => Some(octets),
    }
}
