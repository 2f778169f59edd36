// CCM as a sealing scheme.
ghost use Rattle.std.specs.Prelude.{◌≡◌, ℕ, ◌+◌, ◌≤◌, List, length, take, drop, is_ok, if◌then◌else◌, Decides};
ghost use Rattle.answers.specs.Buffers.{fronted};
ghost use Rattle.sealing.specs.Sealing.{Seals, Opens};
ghost use Rattle.sealing.specs.Tokens.{wiped};
ghost use Rattle.sha256.specs.Hmac.{expand_step, kept_of};
ghost use Rattle.aes.specs.Cipher.{cipher as cipher_of};
ghost use Rattle.ccm.specs.Mode.{sealed as sealed_by, unmasked};
ghost use Rattle.ccm.specs.Scheme.{aes256, cipher_for, ccm_image, ccm_opened, keyless, left};
ghost use Rattle.ccm.specs.Openings.{length-sealed};
ghost use Rattle.ccm.specs.Undoing.{ccm_undoes};

use crate::mode::{mask, tag};
use aes::Aes256;
use answers::Refusal;
use sealing::{
    MAX_CONTENT_LEN, NONCE_LEN, SealingScheme, TAG_LEN, WORKING_LEN, opened_len, same_tag,
    sealed_len,
};
use sha256::HmacKey;

// AEAD_AES_256_CCM, with a key for each nonce: what the secret signs of it.
#[derive(Clone, Copy)]
pub struct CcmScheme {
    secret: HmacKey,
}

impl CcmScheme {
    // Under the scheme of a secret, each content is sealed by CCM under the key that one step of HKDF's expansion makes
    // of the secret and the nonce. Nothing but the secret's two pad states is kept.
    pub fn new(secret: &[u8; 32]) -> CcmScheme
        ensures kept { result ≡ record { secret = kept_of secret.now } }
        ensures images { (n c : List ℕ) → ccm_image result.secret n c ≡ sealed_by (aes256 (expand_step secret.now n)) c }
    {
        CcmScheme {
            secret: HmacKey::new(secret),
        }
    }
}

// The cipher of a nonce. Its key stands in the last 32 of the 96 working bytes.
fn derive(secret: &HmacKey, nonce: &[u8; NONCE_LEN], working: &mut [u8]) -> Aes256
    requires { WORKING_LEN ≤ length working.old }
    ensures cipher { cipher_of result.round_keys ≡ cipher_for secret.now nonce.now }
    ensures front { take MAX_CONTENT_LEN working.new ≡ take MAX_CONTENT_LEN working.old }
    ensures past { drop WORKING_LEN working.new ≡ drop WORKING_LEN working.old }
{
    let key = secret.expand(nonce);
    working[MAX_CONTENT_LEN..WORKING_LEN].copy_from_slice(&key);
    Aes256::new(&key)
}

// Writes the sealed content to the front of `out`.
fn seal_with(aes: &Aes256, content: &[u8], out: &mut [u8])
    requires few { length content.now ≤ MAX_CONTENT_LEN }
    requires room { length content.now + TAG_LEN ≤ length out.old }
    ensures { out.new ≡ fronted (sealed_by (cipher_of aes.now.round_keys) content.now) out.old }
{
    let at = content.len();
    mask(aes, content, out);
    out[at..at + TAG_LEN].copy_from_slice(&tag(aes, content));
}

// Unmasks what stands before the tag into the front of `working`, and tells whether the tag is that content's.
fn open_with(aes: &Aes256, sealed: &[u8], working: &mut [u8]) -> bool
    requires long { TAG_LEN ≤ length sealed.now }
    requires few { length sealed.now ≤ MAX_CONTENT_LEN + TAG_LEN }
    requires room { WORKING_LEN ≤ length working.old }
    ensures fits { Decides result (sealed_by (cipher_of aes.now.round_keys) (unmasked (cipher_of aes.now.round_keys) sealed.now) ≡ sealed.now) }
    ensures after { working.new ≡ fronted (unmasked (cipher_of aes.now.round_keys) sealed.now) working.old }
{
    let len = sealed.len() - TAG_LEN;
    mask(aes, &sealed[0..len], working);
    same_tag(&sealed[len..], &tag(aes, &working[0..len]))
}

impl SealingScheme for CcmScheme {
    ghost image = { λ s. ccm_image s.secret };

    ghost opened = { λ s. ccm_opened s.secret };

    ghost longer = { λ s n c m h. length-sealed (cipher_for s.secret n) c };

    ghost opens = { λ s. (ccm_undoes s.secret).opens };

    ghost only = { λ s. (ccm_undoes s.secret).only };

    // The content stays at the front of the working bytes, and the derived key is wiped.
    fn seal(
        &self,
        nonce: &[u8; NONCE_LEN],
        len: usize,
        out: &mut [u8],
        working: &mut [u8],
    ) -> Result<usize, Refusal>
        ensures seals { Seals (ccm_image self.now.secret nonce.now) len working.old working.new out.old out.new result }
        ensures left { working.new ≡ (if is_ok result then keyless working.old else working.old) }
    {
        let end = sealed_len(len, out, working)?;
        let aes = derive(&self.secret, nonce, working);
        seal_with(&aes, &working[0..len], out);
        working[MAX_CONTENT_LEN..WORKING_LEN].fill(0);
        Ok(end)
    }

    // The derived key is wiped, and where the bytes do not open, all that was unmasked of them.
    fn open(
        &self,
        nonce: &[u8; NONCE_LEN],
        sealed: &[u8],
        working: &mut [u8],
    ) -> Result<Option<usize>, Refusal>
        ensures opens { Opens (ccm_opened self.now.secret nonce.now) sealed.now working.old working.new result }
        ensures left { working.new ≡ (if is_ok result then left sealed.now working.old (ccm_opened self.now.secret nonce.now sealed.now) else working.old) }
    {
        let Some(len) = opened_len(sealed, working)? else {
            return Ok(None);
        };
        let aes = derive(&self.secret, nonce, working);
        if !open_with(&aes, sealed, working) {
            working[0..WORKING_LEN].fill(0);
            return Ok(None);
        }
        working[MAX_CONTENT_LEN..WORKING_LEN].fill(0);
        Ok(Some(len))
    }
}
