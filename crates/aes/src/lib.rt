#![tactic(auto)]
// The block cipher AES-256 of FIPS 197.
ghost use Rattle.aes.specs.Laws.{TheSubstitutionInverts, TheKeyExpansionFollowsItsRule, ACipherIsABlock};
ghost use Rattle.aes.specs.Examples.{TheStandardsExamplesHold};

mod cipher;
mod keys;
mod tables;
#[cfg(test)]
mod tests;

pub use cipher::Aes256;

// The substitution of a byte is the affine image of its inverse in the field.
pub fn the_substitution_inverts()
    ensures { TheSubstitutionInverts }
{}

// The key expansion is the standard's: the key's words, and each later word from two before it.
pub fn the_key_expansion_follows_its_rule()
    ensures { TheKeyExpansionFollowsItsRule }
{}

// Whatever the round keys and the block, the cipher is 16 bytes.
pub fn a_cipher_is_a_block()
    ensures { ACipherIsABlock }
{}

// The definitions give the examples A.3 (the last word) and C.3 of the standard.
pub fn the_standards_examples_hold()
    ensures { TheStandardsExamplesHold }
{}
