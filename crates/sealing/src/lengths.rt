ghost use Rattle.std.specs.Prelude.{◌≡◌, ◌+◌, ◌≤◌, length, IfOk, OnOk};
ghost use Rattle.sealing.specs.Sealing.{sealing, opening, IsOpenedLen};

use crate::{MAX_CONTENT_LEN, TAG_LEN, WORKING_LEN};
use answers::Refusal;

/// How long the image of a content of `len` bytes is. A content of more than 64 bytes, a buffer shorter than the image
/// and fewer than 96 working bytes are refused by 1.
pub fn sealed_len(len: usize, out: &[u8], working: &[u8]) -> Result<usize, Refusal>
    ensures answer { result ≡ sealing len (length working.now) (length out.now) }
    ensures len { IfOk result (λ end. end ≡ len + TAG_LEN) }
    ensures few { OnOk result (len ≤ MAX_CONTENT_LEN) }
    ensures room { OnOk result (len + TAG_LEN ≤ length out.now) }
    ensures enough { OnOk result (WORKING_LEN ≤ length working.now) }
{
    if len > MAX_CONTENT_LEN || working.len() < WORKING_LEN || out.len() < len + TAG_LEN {
        return Err(Refusal::SmallBuffer);
    }
    Ok(len + TAG_LEN)
}

/// How many bytes a content has whose image these bytes can be by their number; `None` below 16 and above 80. Fewer than
/// 96 working bytes are refused by 1.
pub fn opened_len(sealed: &[u8], working: &[u8]) -> Result<Option<usize>, Refusal>
    ensures answer { result ≡ opening (length sealed.now) (length working.now) }
    ensures enough { OnOk result (WORKING_LEN ≤ length working.now) }
    ensures len { IfOk result (IsOpenedLen (length sealed.now)) }
{
    if working.len() < WORKING_LEN {
        return Err(Refusal::SmallBuffer);
    }
    if sealed.len() < TAG_LEN || sealed.len() > MAX_CONTENT_LEN + TAG_LEN {
        return Ok(None);
    }
    Ok(Some(sealed.len() - TAG_LEN))
}
