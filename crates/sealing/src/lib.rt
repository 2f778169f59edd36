#![tactic(auto)]

ghost use Rattle.std.specs.Prelude.{◌≡◌, ℕ, ◌+◌, List, length, Some};
ghost use Rattle.answers.specs.Sameness.{TellsSameness, ClonesAreTheSame, ClonesNeverFail};
ghost use Rattle.wire.specs.Numbers.{Bytes};
ghost use Rattle.sealing.specs.declared.TheConstants.{TAG_LEN};
ghost use Rattle.sealing.specs.Sealing.{Image, Opening, IsNonce, IsContent, Seals, Opens};
ghost use Rattle.sealing.specs.Laws.{AnImageFixesWhatOpens, NoTwoContentsHaveOneImage, AWrittenTokenSaysItsContent, OnlyWhatIsSealedIsRead};

mod bench;
mod lengths;
mod tag;
mod tagged;
#[cfg(test)]
mod tests;
mod token;
mod tokens;
mod working;

use answers::Refusal;
pub use bench::{BenchScheme, BenchTag, check_bytes};
pub use lengths::{opened_len, sealed_len};
pub use tag::same_tag;
pub use tagged::{Tag, Tagged};
pub use token::{Nonce, Token};
pub use tokens::{decode_token, encode_token};

/// How many bytes a nonce has.
pub const NONCE_LEN: usize = 16;

/// How many bytes the longest content has that a scheme takes.
pub const MAX_CONTENT_LEN: usize = 64;

/// How many bytes longer than its content an image is.
pub const TAG_LEN: usize = 16;

/// How many bytes the longest token has.
pub const MAX_TOKEN_LEN: usize = 81;

/// How many working bytes there are: 64 for a content, and 32 for a key that a scheme derives.
pub const WORKING_LEN: usize = 96;

// A way of sealing contents. It means, for each nonce, a map from contents of at most 64 bytes to bytes 16 longer.
pub trait SealingScheme {
    // under a nonce, the bytes that stand for a content
    ghost image: { Self → Image };

    // under a nonce, the content that bytes stand for, if any: the laws leave no choice of it
    ghost opened: { Self → Opening };

    // Seals the content that stands in the first `len` working bytes, into the front of `out`.
    // It is sealed where it was written, so its length comes beside them.
    // The rest of the first 96 working bytes is the scheme's to use.
    fn seal(
        &self,
        nonce: &[u8; NONCE_LEN],
        len: usize,
        out: &mut [u8],
        working: &mut [u8],
    ) -> Result<usize, Refusal>
        ensures { Seals (image self.now nonce.now) len working.old working.new out.old out.new result };

    // Opens sealed bytes into the front of the working bytes, and answers how many the content has;
    // `None` where they are the image of no content.
    fn open(
        &self,
        nonce: &[u8; NONCE_LEN],
        sealed: &[u8],
        working: &mut [u8],
    ) -> Result<Option<usize>, Refusal>
        ensures { Opens (opened self.now nonce.now) sealed.now working.old working.new result };

    // The laws speak of nonces, contents and sealed bytes as a call has them: of bytes, and of no other numbers.
    ghost longer: { (s : Self) (n c : List ℕ) → IsNonce n → IsContent c → length (image s n c) ≡ length c + TAG_LEN };

    ghost opens: { (s : Self) (n c : List ℕ) → IsNonce n → IsContent c → opened s n (image s n c) ≡ Some c };

    ghost only: { (s : Self) (n b c : List ℕ) → IsNonce n → Bytes b → opened s n b ≡ Some c → (image s n c ≡ b) × IsContent c };
}

// Two ways of opening that undo one image open the same bytes to the same contents.
pub fn an_image_fixes_what_opens()
    ensures { AnImageFixesWhatOpens }
{}

// Under one nonce, no two contents have one image.
pub fn no_two_contents_have_one_image<S: SealingScheme>(scheme: &S)
    ensures { NoTwoContentsHaveOneImage (S.SealingScheme.image scheme.now) }
{}

// A token that is written of a content says that content, and has the low half of its nonce.
pub fn a_written_token_says_its_content<S: SealingScheme>(scheme: &S)
    ensures { AWrittenTokenSaysItsContent (S.SealingScheme.image scheme.now) (S.SealingScheme.opened scheme.now) }
{}

// A token that says a content is the image of that content's bytes, and its nonce.
pub fn only_what_is_sealed_is_read<S: SealingScheme>(scheme: &S)
    ensures { OnlyWhatIsSealedIsRead (S.SealingScheme.image scheme.now) (S.SealingScheme.opened scheme.now) }
{}

// Two tokens are equal just if they are the same.
pub fn equal_tokens_are_the_same()
    ensures { TellsSameness (⟦<Token as PartialEq>⟧.eq) }
{
    wire::equal_contents_are_the_same();
}

// A clone of a token or of a bench scheme is what it was made of, and never fails.
pub fn cloned_values_are_the_same()
    ensures tokens { ClonesAreTheSame (⟦<Token as Clone>⟧.is_clone) }
    ensures schemes { ClonesAreTheSame (⟦<BenchScheme as Clone>⟧.is_clone) }
    ensures tokens_come { ClonesNeverFail (⟦<Token as Clone>⟧.is_infallible) }
    ensures schemes_come { ClonesNeverFail (⟦<BenchScheme as Clone>⟧.is_infallible) }
{}

// The public constants are the numbers of the rules.
pub fn the_limits_are_those_of_the_rules()
    ensures nonce { NONCE_LEN ≡ 16 }
    ensures content { MAX_CONTENT_LEN ≡ 64 }
    ensures tag { TAG_LEN ≡ 16 }
    ensures working { WORKING_LEN ≡ 96 }
    ensures token { MAX_TOKEN_LEN ≡ 81 }
{}
