ghost use Rattle.std.specs.Prelude.{◌≡◌, ◌≤◌, true, length};

mod storing;

/// A store of one token in all: that of the last insert, till it is taken.
#[derive(Drop)]
pub struct OneToken {
    name: Vec<u8>,
    token: Vec<u8>,
    filled: bool,
    ghost short: { length token.items ≤ 512 },
}

impl OneToken {
    // Keeps these alone; or nothing, where the memory does not suffice.
    fn keep(&mut self, name: &[u8], token: &[u8])
        requires { length token.now ≤ 512 }
        ensures { self.new.filled ≡ true → (self.new.name.items ≡ name.now) × (self.new.token.items ≡ token.now) }
    {
        self.name.clear();
        self.token.clear();
        self.filled = self.name.extend_from_slice(name).is_ok()
            && self.token.extend_from_slice(token).is_ok();
    }
}
