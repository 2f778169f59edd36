// Laws of tables over whole successions of calls, and of tokens. The functions do nothing: what they ensure holds of every value.
ghost use Rattle.answers.specs.Sameness.{TellsSameness, ClonesAreTheSame, ClonesNeverFail};
ghost use Rattle.stateless_reset.specs.Laws.{Throughout, ToldByGivenTokens, RefusedAtItsPlaces, ARestartedUnitIsKnown};

use crate::bench::BenchKey;
use crate::key::SigningKey;
use crate::table::ResetTokenTable;
use crate::token::ResetToken;

/// A datagram is told to be a reset just if it has at least 21 bytes and an earlier call that was not refused gave its last 16.
pub fn a_datagram_is_a_reset_just_if_its_token_was_given(table: &ResetTokenTable)
    ensures { Throughout ToldByGivenTokens table.now }
{}

/// Refusal 44 comes just to a token that no earlier call gave, where calls that were not refused gave as many different tokens as
/// there are places.
pub fn a_table_is_full_with_as_many_tokens_as_places(table: &ResetTokenTable)
    ensures { Throughout RefusedAtItsPlaces table.now }
{}

/// A unit that makes the token of a connection id again, by the same key, after it has lost all else, is known by it: where the table
/// was given the token that it made before, a datagram of at least 21 bytes that ends with the new one is a reset.
pub fn a_restarted_unit_is_known<K: SigningKey>(key: &K, table: &ResetTokenTable)
    ensures { ARestartedUnitIsKnown (K.SigningKey.signature key.now) table.now }
{}

/// Two tokens are equal just if they are the same.
pub fn equal_tokens_are_the_same()
    ensures { TellsSameness (⟦<ResetToken as PartialEq>⟧.eq) }
{}

/// A clone of a token or of a bench key is what it was made of, and never fails.
pub fn clones_are_the_same()
    ensures tokens { ClonesAreTheSame (⟦<ResetToken as Clone>⟧.is_clone) }
    ensures keys { ClonesAreTheSame (⟦<BenchKey as Clone>⟧.is_clone) }
    ensures tokens_come { ClonesNeverFail (⟦<ResetToken as Clone>⟧.is_infallible) }
    ensures keys_come { ClonesNeverFail (⟦<BenchKey as Clone>⟧.is_infallible) }
{}
