#![tactic(auto)]

ghost use Rattle.answers.specs.Sameness.{ClonesAreTheSame, ClonesNeverFail};

mod mode;
mod scheme;

pub use scheme::CcmScheme;

// A clone of a scheme is what it was made of, and never fails.
pub fn cloned_schemes_are_the_same()
    ensures same { ClonesAreTheSame (⟦<CcmScheme as Clone>⟧.is_clone) }
    ensures come { ClonesNeverFail (⟦<CcmScheme as Clone>⟧.is_infallible) }
{}
