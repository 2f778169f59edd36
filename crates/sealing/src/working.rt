ghost use Rattle.std.specs.Prelude.{◌≡◌, replicate};

use crate::WORKING_LEN;

// A guard over the working bytes: whichever way a call is left, they are wiped then.
pub(crate) struct Working<'a>(pub(crate) &'a mut [u8; WORKING_LEN]);

impl Drop for Working<'_> {
    fn drop(self)
        ensures { self.exit.0.now ≡ replicate WORKING_LEN 0 }
    {
        self.0.fill(0);
        let Working(_) = self;
    }
}
