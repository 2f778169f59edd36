ghost use Rattle.std.specs.Prelude.{◌≡◌, length, Decides};
ghost use Rattle.sealing.specs.Sealing.{SameTo};

use crate::TAG_LEN;

// The differences of two blocks, joined: zero where there is none.
fn differences(bytes: &[u8], tag: &[u8; TAG_LEN]) -> u8
    requires { length bytes.now ≡ TAG_LEN }
    ensures none { result ≡ 0 → SameTo TAG_LEN bytes.now tag.now }
    ensures same { SameTo TAG_LEN bytes.now tag.now → result ≡ 0 }
{
    let mut joined = 0;
    // By index in the tag: over a `zip` the step of the loop stayed unproved.
    for (j, byte) in bytes.iter().enumerate() {
        joined |= *byte ^ tag[j];
    }
    joined
}

// Whether bytes are this tag. All differences are joined before the test, so that no early exit tells where the first
// one is.
pub fn same_tag(bytes: &[u8], tag: &[u8; TAG_LEN]) -> bool
    ensures { Decides result (bytes.now ≡ tag.now) }
{
    bytes.len() == TAG_LEN && differences(bytes, tag) == 0
}
