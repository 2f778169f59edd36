#![tactic(auto)]
// Bytes in hex, both ways. Only small letters are digits: the toolchain's own library takes capitals too.
ghost use Rattle.std.specs.Prelude.{◌≡◌, ◌<◌, length, is_some, Some, None, Ok, IfOk, IsOk};
ghost use Rattle.hex_text.specs.Digits.{hex, glyph_of, digit_of, paired, unhex, read};

use std::alloc::{AllocError, Global};
use std::fmt;

#[cfg(test)]
mod tests;

// Bytes that are shown in hex, whatever width, precision or sign is asked for.
#[derive(Drop)]
pub struct Hex<'a>(pub &'a [u8]);

impl fmt::Display for Hex<'_> {
    ghost output = { λ h. Some (hex h.0.now) };

    ghost styled_output = { λ h _. Some (hex h.0.now) };

    fn fmt<W: fmt::Write>(&self, f: &mut fmt::Formatter<W>) -> fmt::Result {
        for byte in self.0 {
            f.write_char(glyph(byte / 16))?;
            f.write_char(glyph(byte % 16))?;
        }
        Ok(())
    }
}

fn glyph(n: u8) -> char
    requires { n < 16 }
    ensures { result ≡ glyph_of n }
{
    char::from(if n <= 9 { b'0' + n } else { b'a' + n - 10 })
}

fn digit(c: u8) -> Option<u8>
    ensures { result ≡ digit_of c }
{
    match c {
        b'0'..=b'9' => Some(c - b'0'),
        b'a'..=b'f' => Some(c - b'a' + 10),
        _ => None,
    }
}

fn pair(high: u8, low: u8) -> Option<u8>
    ensures { result ≡ paired (digit_of high) (digit_of low) }
{
    Some(16 * digit(high)? + digit(low)?)
}

// Whether a text writes bytes at all: it is pairs of digits and nothing else.
fn writes_bytes(text: &[u8]) -> bool
    ensures { result ≡ is_some (unhex text.now) }
{
    let mut left = text;
    while let [high, low, rest @ ..] = left {
        if pair(*high, *low).is_none() {
            return false;
        }
        left = rest;
    }
    left.is_empty()
}

// The bytes that a text writes in hex, or `None` where it is not such a text: that is told whatever memory there is, as
// memory is asked for only once the text is known to write bytes.
pub fn read_hex(heap: Global, text: &[u8]) -> Result<Option<Vec<u8>>, AllocError>
    ensures value { IfOk result (λ o. read o ≡ unhex text.now) }
    ensures none { unhex text.now ≡ None → result ≡ Ok None }
    ensures empty { length text.now ≡ 0 → IsOk result }
{
    if !writes_bytes(text) {
        return Ok(None);
    }
    let mut bytes = Vec::with_capacity(heap, text.len() / 2)?;
    let mut left = text;
    while let [high, low, rest @ ..] = left {
        let Some(byte) = pair(*high, *low) else {
            return Ok(None);
        };
        bytes.push_reserved(byte);
        left = rest;
    }
    Ok(Some(bytes))
}

// What is shown of bytes reads as these bytes.
pub fn reading_undoes_showing(bytes: &[u8])
    ensures { unhex (hex bytes.now) ≡ Some bytes.now }
{}
