ghost use Rattle.std.specs.Prelude.{◌≡◌};

// An item, and the place of the record that follows in its chain. The lent memory is fixed: a place is a `u32` with 0 for
// none, since an `Option<u32>` takes 8 bytes, not 4.
#[derive(Clone, Copy)]
pub struct Record<T> {
    pub(crate) next: u32,
    pub(crate) item: T,
}

impl<T: Copy> Record<T> {
    // A record to lend.
    pub const fn new(item: T) -> Record<T>
        ensures { result ≡ record { next = 0; item = item } }
    {
        Record { next: 0, item }
    }

    pub fn item(&self) -> T
        ensures { result ≡ self.now.item }
    {
        self.item
    }
}
