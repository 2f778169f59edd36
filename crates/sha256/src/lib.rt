#![tactic(auto)]

ghost use Rattle.answers.specs.Sameness.{ClonesAreTheSame, ClonesNeverFail};
ghost use Rattle.sha256.specs.Laws.{ConstantsAreRoots, EverySchedule};

mod block;
mod constants;
mod hmac;
mod message;

pub use hmac::HmacKey;
pub use message::digest;

// The round constants and the initial hash value are root fractions of the first primes.
pub fn the_constants_are_root_fractions()
    ensures { ConstantsAreRoots }
{}

// The message schedule is the block's words and then each word from four before it.
pub fn each_word_follows_from_four_before_it()
    ensures { EverySchedule }
{}

// A clone of a key is what it was made of, and never fails.
pub fn cloned_keys_are_the_same()
    ensures same { ClonesAreTheSame (⟦<HmacKey as Clone>⟧.is_clone) }
    ensures come { ClonesNeverFail (⟦<HmacKey as Clone>⟧.is_infallible) }
{}
