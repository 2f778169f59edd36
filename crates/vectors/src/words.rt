// The words of a line.
use anyhow::anyhow;
use hex_text::read_hex;
use std::alloc::Global;

// Bytes in hex; `-` for none, and COUNTxHEX for so many copies.
pub(crate) fn bytes(heap: Global, word: Option<&str>) -> anyhow::Result<Vec<u8>> {
    let Some(word) = word else {
        return Err(anyhow!("a word is missing"));
    };
    if word == "-" {
        return Ok(Vec::new(heap));
    }
    let (count, text) = match word.split_once('x') {
        Some((count, text)) => (count.parse::<u32>()?, text),
        None => (1, word),
    };
    let Some(part) = read_hex(heap, text.as_bytes())? else {
        return Err(anyhow!("a word is not in hex"));
    };
    Ok(part.repeat(heap, count as usize)?)
}

// Bytes of just one length.
pub(crate) fn array<const N: usize>(heap: Global, word: Option<&str>) -> anyhow::Result<[u8; N]> {
    let read = bytes(heap, word)?;
    let Ok(array) = read.as_slice().try_into() else {
        return Err(anyhow!("a word has another length"));
    };
    Ok(array)
}
