ghost use Rattle.std.specs.Prelude.{◌≡◌, ℕ, ◌<◌, ◌≤◌, ◌++◌, length, drop, position, [], ◌∷◌, true, Some as found, nat_le, if◌then◌else◌};
ghost use Rattle.std.specs.List.{list_any};
ghost use Rattle.record_pool.specs.Pools.{items};
ghost use Rattle.record_pool.specs.Chains.{empty_chain};
ghost use Rattle.token_memory_cache.specs.Cache.{sound, given, left, added, stored};
ghost use Rattle.std.specs.Str.{bytes_eq};
ghost use Rattle.token_memory_cache.specs.Shelves.{listed, entries, Stands, TakenOff, Becomes, Opened, Room, Refilled, SameSize, Sound, Took};

use crate::order::TakeOrder;
use crate::text::Text;
use record_pool::{Chain, Pool, Record};
use token_store::{MAX_NAME_LEN, MAX_STORED_LEN};

/// A name, and the chain of its tokens, the oldest first.
#[derive(Clone, Copy)]
pub struct NameEntry {
    name: Text<MAX_NAME_LEN>,
    tokens: Chain,
}

impl NameEntry {
    /// An entry to lend memory with: no name, and no tokens.
    pub fn new() -> NameEntry
        ensures { result ≡ record { name = []; tokens = empty_chain } }
    {
        NameEntry {
            name: Text::new(),
            tokens: Chain::new(),
        }
    }
}

/// The records that a cache is lent, for names and for tokens.
pub type LentRecords<'a> = (
    &'a mut [Record<NameEntry>],
    &'a mut [Record<Text<MAX_STORED_LEN>>],
);

// Names with their tokens in records of two pools, the name least recently used first.
#[derive(Drop)]
pub(crate) struct Shelf<'a> {
    names: Pool<'a, NameEntry>,
    tokens: Pool<'a, Text<MAX_STORED_LEN>>,
    used: Chain,
}

impl<'a> Shelf<'a> {
    // No names, in pools that are all free.
    pub(crate) fn new(
        names: Pool<'a, NameEntry>,
        tokens: Pool<'a, Text<MAX_STORED_LEN>>,
    ) -> Shelf<'a>
        ensures { result ≡ record { names = names.entry; tokens = tokens.entry; used = empty_chain } }
    {
        Shelf {
            names,
            tokens,
            used: Chain::new(),
        }
    }

    // The records of both pools.
    pub(crate) fn lent(&self) -> (&[Record<NameEntry>], &[Record<Text<MAX_STORED_LEN>>])
        ensures names { result.0.now ≡ self.now.names.records.now }
        ensures tokens { result.1.now ≡ self.now.tokens.records.now }
    {
        (self.names.records(), self.tokens.records())
    }

    // The same, from which the shelf then goes.
    pub(crate) fn into_records(self) -> LentRecords<'a>
        ensures names { result.0.now ≡ self.entry.names.records.now }
        ensures tokens { result.1.now ≡ self.entry.tokens.records.now }
    {
        (self.names.into_records(), self.tokens.into_records())
    }

    // Where a name stands among those used.
    fn find(&self, name: &[u8]) -> Option<usize>
        ensures { result ≡ position (λ e. bytes_eq name.now e.name) (entries self.now) }
    {
        self.names
            .items(self.used)
            .position(|entry| entry.name.is(name))
    }

    // Whether a token is in a chain.
    fn has(&self, tokens: Chain, token: &[u8]) -> bool
        ensures { result ≡ list_any (bytes_eq token.now) (items self.now.tokens tokens) }
    {
        self.tokens.items(tokens).any(|held| held.is(token))
    }

    // Takes name k off, and answers the chain of its tokens.
    fn take_off(&mut self, k: usize) -> Chain
        requires stands { Stands [] self.old }
        requires there { k < length (listed self.old) }
        ensures { TakenOff k self.old self.new result }
    {
        self.names.remove(&mut self.used, k as u32).unwrap().tokens
    }

    // Makes room for a name below a limit: at it, drops the name least recently used, with its tokens.
    fn make_room(&mut self, most: u32)
        requires stands { Stands [] self.old }
        requires some { 0 < most }
        ensures { Becomes [] self.old self.new (if nat_le most (length (entries self.old)) then drop 1 (entries self.old) else entries self.old) }
    {
        if self.used.len() < most {
            return;
        }
        let mut entry = self.names.remove(&mut self.used, 0).unwrap();
        self.tokens.release(&mut entry.tokens);
    }

    // Takes the tokens of a name off; where it is not there, makes room for it below a limit.
    fn open(&mut self, name: &[u8], most: u32) -> Chain
        requires stands { Stands [] self.old }
        requires apart { sound (entries self.old) ≡ true }
        requires some { 0 < most }
        ensures { Opened most name.now self.old self.new result }
    {
        let Some(k) = self.find(name) else {
            self.make_room(most);
            return Chain::new();
        };
        self.take_off(k)
    }

    // Takes the token out of a chain that comes first in the order.
    fn pop<O: TakeOrder>(&mut self, tokens: &mut Chain) -> Text<MAX_STORED_LEN>
        requires stands { Stands (tokens.old ∷ []) self.old }
        requires some { 0 < tokens.old.count }
        ensures tokens { Refilled self.old self.new tokens.new (left O.place (items self.old.tokens tokens.old)) }
        ensures given { given O.place (items self.old.tokens tokens.old) ≡ found result }
    {
        let place = O::place(tokens.len());
        self.tokens.remove(tokens, place).unwrap()
    }

    // Adds a token to a chain: a duplicate is discarded, and at a limit the oldest is dropped.
    fn add(&mut self, tokens: &mut Chain, token: &[u8], most: u32)
        requires stands { Stands (tokens.old ∷ []) self.old }
        requires room { Room most self.old tokens.old }
        requires short { length token.now ≤ 512 }
        ensures { Refilled self.old self.new tokens.new (added most token.now (items self.old.tokens tokens.old)) }
    {
        if self.has(*tokens, token) {
            return;
        }
        if tokens.len() >= most {
            self.tokens.remove(tokens, 0);
        }
        self.tokens.push_back(tokens, Text::of(token));
    }

    // Puts a name behind the others, with a chain of tokens.
    fn put_back(&mut self, name: &[u8], tokens: Chain)
        requires stands { Stands (tokens ∷ []) self.old }
        requires room { length (entries self.old) < length self.old.names.records.now }
        requires short { length name.now ≤ 255 }
        ensures { Becomes [] self.old self.new (entries self.old ++ record { name = name.now; tokens = items self.old.tokens tokens } ∷ []) }
    {
        let name = Text::of(name);
        self.names
            .push_back(&mut self.used, NameEntry { name, tokens });
    }

    // Stores a token under a name, at limits of names and of tokens a name.
    pub(crate) fn store(&mut self, name: &[u8], token: &[u8], names: u32, tokens: u32)
        requires sound { Sound names tokens self.old }
        requires short { (length name.now ≤ 255) × (length token.now ≤ 512) }
        ensures sound { Sound names tokens self.new }
        ensures size { SameSize self.old self.new }
        ensures entries { entries self.new ≡ stored names tokens name.now token.now (entries self.old) }
    {
        if names == 0 || tokens == 0 {
            return;
        }
        let mut held = self.open(name, names);
        self.add(&mut held, token, tokens);
        self.put_back(name, held);
    }

    // Takes the token of a name that comes first in the order.
    pub(crate) fn take<O: TakeOrder>(&mut self, name: &[u8]) -> Option<Text<MAX_STORED_LEN>>
        requires stands { Stands [] self.old }
        requires apart { sound (entries self.old) ≡ true }
        requires short { length name.now ≤ 255 }
        ensures { (names tokens : ℕ) → Sound names tokens self.old → Took O.place names tokens name.now self.old self.new result }
    {
        let k = self.find(name)?;
        let mut chain = self.take_off(k);
        let token = self.pop::<O>(&mut chain);
        if !chain.is_empty() {
            self.put_back(name, chain);
        }
        Some(token)
    }
}
