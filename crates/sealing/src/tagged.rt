ghost use Rattle.std.specs.Prelude.{◌≡◌, ℕ, List, length, is_ok, if◌then◌else◌};
ghost use Rattle.sealing.specs.declared.TheConstants.{TAG_LEN};
ghost use Rattle.sealing.specs.Sealing.{IsNonce, IsContent, Seals, Opens};
ghost use Rattle.sealing.specs.Tagged.{TagOf, tagged_image, tagged_opened, tagged_left};
ghost use Rattle.sealing.specs.Tagging.{length_tagged, tagged_undoes};

use crate::{NONCE_LEN, SealingScheme, TAG_LEN, opened_len, same_tag, sealed_len};
use answers::Refusal;

/// A way of making a tag of 16 bytes of a nonce and a content.
pub trait Tag {
    ghost tag_of: { Self → TagOf };

    /// The tag of a nonce and a content of at most 64 bytes.
    fn tag(&self, nonce: &[u8; NONCE_LEN], content: &[u8]) -> [u8; TAG_LEN]
        ensures { result ≡ tag_of self.now nonce.now content.now };

    ghost sixteen: { (s : Self) (n c : List ℕ) → IsNonce n → IsContent c → length (tag_of s n c) ≡ TAG_LEN };
}

/// The sealing scheme of a tag: the content as it is, and its tag behind it. It hides nothing; whether it keeps anybody
/// out is a matter of the tag.
#[derive(Clone, Copy)]
pub struct Tagged<T> {
    pub(crate) tag: T,
}

impl<T: Tag> Tagged<T> {
    /// The scheme of this tag.
    pub fn of(tag: T) -> Tagged<T>
        ensures { result ≡ record { tag = tag } }
    {
        Tagged { tag }
    }
}

// `seals` and `opens` are the trait's clauses, written out: beside a clause of a method's own they are not derived.
impl<T: Tag> SealingScheme for Tagged<T> {
    ghost image = { λ s. tagged_image (T.tag_of s.tag) };

    ghost opened = { λ s. tagged_opened (T.tag_of s.tag) };

    ghost longer = { λ s n c m h. length_tagged (T.tag_of s.tag) (T.sixteen s.tag) n c m h };

    ghost opens = { λ s. (tagged_undoes (T.tag_of s.tag) (T.sixteen s.tag)).opens };

    ghost only = { λ s. (tagged_undoes (T.tag_of s.tag) (T.sixteen s.tag)).only };

    // The working bytes stay as they were.
    fn seal(
        &self,
        nonce: &[u8; NONCE_LEN],
        len: usize,
        out: &mut [u8],
        working: &mut [u8],
    ) -> Result<usize, Refusal>
        ensures seals { Seals (tagged_image (T.tag_of self.now.tag) nonce.now) len working.old working.new out.old out.new result }
        ensures left { working.new ≡ working.old }
    {
        let end = sealed_len(len, out, working)?;
        let content = &working[..len];
        let tag = self.tag.tag(nonce, content);
        out[..len].copy_from_slice(content);
        out[len..end].copy_from_slice(&tag);
        Ok(end)
    }

    // Nothing but the content is written to the working bytes.
    fn open(
        &self,
        nonce: &[u8; NONCE_LEN],
        sealed: &[u8],
        working: &mut [u8],
    ) -> Result<Option<usize>, Refusal>
        ensures opens { Opens (tagged_opened (T.tag_of self.now.tag) nonce.now) sealed.now working.old working.new result }
        ensures left { working.new ≡ (if is_ok result then tagged_left working.old (tagged_opened (T.tag_of self.now.tag) nonce.now sealed.now) else working.old) }
    {
        wire::slices_are_bytes(nonce);
        wire::slices_are_bytes(sealed);
        let Some(len) = opened_len(sealed, working)? else {
            return Ok(None);
        };
        let content = &sealed[..len];
        let tag = self.tag.tag(nonce, content);
        if !same_tag(&sealed[len..], &tag) {
            return Ok(None);
        }
        working[..len].copy_from_slice(content);
        Ok(Some(len))
    }
}
