// The lines of an input, read one at a time into the same memory.
ghost use Rattle.std.specs.Prelude.{◌≡◌, ◌≢◌, ◌≤◌, ◌↔◌, length, slice_index, IfOk, OnErr, IsTrue, IsUtf8};

use crate::words::Bad;
use std::io;
use std::io::{BufRead, Read};

// The longest line, in bytes without its end: a token of 1,000,000 bytes takes less than half of it.
const MAX_LINE: usize = 4_194_304;

// The longest line with its end, the most that is ever kept of one.
pub(crate) const LINE_MEMORY: usize = MAX_LINE + 2;

// Reads the next line in place of the one before, without its end, which is LF or CRLF; false after the last line. Of a line that
// is too long the front is kept, which is too long itself, and the rest is passed over.
pub(crate) fn read_line(input: &mut impl BufRead, line: &mut Vec<u8>) -> io::Result<bool> {
    line.clear();
    let mut front = input.by_ref().take(LINE_MEMORY as u64);
    if front.read_until(b'\n', line)? == 0 {
        return Ok(false);
    }
    if line.last() == Some(&b'\n') {
        line.pop();
        if line.last() == Some(&b'\r') {
            line.pop();
        }
    } else if line.len() > MAX_LINE {
        input.skip_until(b'\n')?;
    }
    Ok(true)
}

// Whether a line says something: it is not empty, and no comment.
pub(crate) fn says_something(line: &[u8]) -> bool
    ensures { IsTrue result ↔ (length line.now ≢ 0 × slice_index line.now 0 ≢ 35) }
{
    !line.is_empty() && line[0] != b'#'
}

// A line as text. What is refused is too long, or no UTF-8.
pub(crate) fn as_text(line: &[u8]) -> Result<&str, Bad>
    ensures text { IfOk result (λ text. (text.now ≡ line.now) × (length line.now ≤ MAX_LINE)) }
    ensures refused { OnErr result (length line.now ≤ MAX_LINE → ¬ (IsUtf8 line.now)) }
{
    if line.len() > MAX_LINE {
        return Err(Bad::Line("a line too long"));
    }
    match str::from_utf8(line) {
        Ok(text) => Ok(text),
        Err(_) => Err(Bad::Line("not text")),
    }
}
