ghost use Rattle.std.specs.Prelude.{◌≡◌, length, []};
ghost use Rattle.std.specs.Str.{bytes_eq};
ghost use Rattle.stateless_reset.specs.Comparing.{differences, joined};

use std::slice::Iter;

// Reads the bytes that are to come to their end, beside as many others, and joins all differences: zero where there is none. The
// comparison with zero stands outside.
fn constant_time_ne(unread: &mut Iter<'_, u8>, others: &[u8]) -> u8
    requires { length unread.old.rest.now ≡ length others.now }
    ensures joined { result ≡ joined (differences unread.old.rest.now others.now) }
    ensures read { unread.new.rest.now ≡ [] }
{
    let mut all = 0;
    let mut i = 0;
    while let Some(byte) = unread.next() {
        all |= *byte ^ others[i];
        i += 1;
    }
    all
}

/// Whether two strings are equal. All byte differences are joined before the test for zero, and every byte is read, so that no
/// early exit tells where the first one is.
pub fn constant_time_eq(a: &[u8], b: &[u8]) -> bool
    ensures { result ≡ bytes_eq a.now b.now }
{
    a.len() == b.len() && constant_time_ne(&mut a.iter(), b) == 0
}
