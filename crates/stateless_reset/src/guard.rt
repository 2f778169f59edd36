ghost use Rattle.std.specs.Prelude.{◌≡◌, take, drop, replicate};
ghost use Rattle.sealing.specs.declared.TheConstants.{WORKING_LEN as working_len};
ghost use Rattle.stateless_reset.specs.declared.TheConstants.{MAX_SIGNATURE_LEN, RESET_WORKING_LEN};

use crate::RESET_WORKING_LEN;
use sealing::WORKING_LEN;

// A guard over the working bytes and the signature behind them: whichever way a call is left, both are wiped then, the
// signature first.
pub(crate) struct Signing<'a>(pub(crate) &'a mut [u8; RESET_WORKING_LEN]);

fn wipe_signature(buffer: &mut [u8; RESET_WORKING_LEN])
    ensures working { take working_len buffer.new ≡ take working_len buffer.old }
    ensures signature { drop working_len buffer.new ≡ replicate MAX_SIGNATURE_LEN 0 }
{
    let (_, signature) = buffer.split_at_mut(WORKING_LEN);
    signature.fill(0);
}

// The working bytes are wiped once the signature behind them is.
fn wipe_working(buffer: &mut [u8; RESET_WORKING_LEN])
    requires { drop working_len buffer.old ≡ replicate MAX_SIGNATURE_LEN 0 }
    ensures { buffer.new ≡ replicate RESET_WORKING_LEN 0 }
{
    buffer[..WORKING_LEN].fill(0);
}

impl Drop for Signing<'_> {
    fn drop(self)
        ensures { self.exit.0.now ≡ replicate RESET_WORKING_LEN 0 }
    {
        wipe_signature(self.0);
        wipe_working(self.0);
        let Signing(_) = self;
    }
}
