ghost use Rattle.std.specs.Prelude.{◌≡◌, ◌≤◌, [], is_ok, length, IfErr, IfOk};
ghost use Rattle.answers.specs.Sameness.{ClonesAreTheSame, ClonesNeverFail};
ghost use Rattle.answers.specs.declared.Refusal.TheVariants.{Capacity};
ghost use Rattle.token_store.specs.Store.{Stores, Takes};
ghost use Rattle.token_store.specs.Laws.{HoldsNothing};
ghost use Rattle.token_memory_cache.specs.Lent.{Lent};
ghost use Rattle.token_memory_cache.specs.Cache.{Cache, allowed, Kept, holding, insert_answer, inserted, take_answer, taken_into, taken_from};

use crate::order::{NewestFirst, OldestFirst, TakeOrder};
use crate::shelf::{LentRecords, NameEntry, Shelf};
use crate::text::Text;
use answers::{Refusal, Refused};
use record_pool::{Chain, Pool, Record};
use std::marker::{Model, PhantomData};
use token_store::{MAX_NAME_LEN, MAX_STORED_LEN, TokenStore};

/// The most names that a cache may be allowed.
pub const MAX_SERVER_NAMES: u32 = 1024;

/// The most tokens a name that it may be allowed.
pub const MAX_TOKENS_PER_SERVER: u32 = 16;

/// The usual limit of names.
pub const DEFAULT_SERVER_NAMES: u32 = 256;

/// The usual limit of tokens a name.
pub const DEFAULT_TOKENS_PER_SERVER: u32 = 2;

/// Keeps tokens for a limited number of server names, and a limited number of tokens a name, in lent memory. A take hands out
/// the token of its name that comes first in the order `O`; in any order, a full name drops its oldest token, and a name past
/// the limit pushes out the one that was unused longest.
#[derive(Drop)]
pub struct MemoryCache<'a, O> {
    shelf: Shelf<'a>,
    max_server_names: u32,
    max_tokens_per_server: u32,
    order: PhantomData<O>,
}

/// A take hands out the oldest token of its name.
pub type TokenMemoryCache<'a> = MemoryCache<'a, OldestFirst>;

/// A take hands out the newest token of its name, which is likeliest to be effective.
pub type NewestFirstCache<'a> = MemoryCache<'a, NewestFirst>;

// In clauses a cache is its limits, how many records it was lent, and the list of its names with their tokens.
impl<'a, O> Model for MemoryCache<'a, O> {
    ghost use Rattle.token_memory_cache.specs.Cache.{Cache};
    ghost use Rattle.token_memory_cache.specs.Shelves.{Sound, cache_of};

    ghost Value = { Cache };

    ghost view = { λ c. cache_of c.max_server_names c.max_tokens_per_server c.shelf };

    ghost invariant = { λ c. Sound c.max_server_names c.max_tokens_per_server c.shelf };
}

impl<'a, O> MemoryCache<'a, O> {
    /// An empty cache, in records that are then all blank: one for each name allowed, and one for each token. Refused by 7 where
    /// a limit is too high, or the records are fewer than the limits need, or more than 32 bits count; the records then come back
    /// as they were.
    pub fn new(
        max_server_names: u32,
        max_tokens_per_server: u32,
        names: &'a mut [Record<NameEntry>],
        tokens: &'a mut [Record<Text<MAX_STORED_LEN>>],
    ) -> Result<MemoryCache<'a, O>, Refused<LentRecords<'a>>>
        ensures answer { is_ok result ≡ allowed max_server_names max_tokens_per_server (length names.old) (length tokens.old) }
        ensures made { IfOk result (λ c. c ≡ record { names = max_server_names; tokens = max_tokens_per_server; name_records = length names.old; token_records = length tokens.old; entries = [] }) }
        ensures refused { IfErr result (λ e. (e.refusal ≡ Capacity) × (e.back.0.now ≡ names.old) × (e.back.1.now ≡ tokens.old)) }
        ensures nothing { IfOk result (HoldsNothing (λ (c : Cache). holding c.entries)) }
    {
        if max_server_names > MAX_SERVER_NAMES
            || max_tokens_per_server > MAX_TOKENS_PER_SERVER
            || names.len() < max_server_names as usize
            || tokens.len() < (max_server_names * max_tokens_per_server) as usize
            || names.len() > u32::MAX as usize
            || tokens.len() > u32::MAX as usize
        {
            return Err(Refused {
                refusal: Refusal::Capacity,
                back: (names, tokens),
            });
        }
        let Ok(names) = Pool::new(names, NameEntry::new()) else {
            unreachable!()
        };
        let Ok(tokens) = Pool::new(tokens, Text::new()) else {
            unreachable!()
        };
        let shelf = Shelf::new(names, tokens);
        Ok(MemoryCache {
            shelf,
            max_server_names,
            max_tokens_per_server,
            order: PhantomData,
        })
    }

    /// An empty cache with the usual limits, 256 names and 2 tokens a name; refused as `new` is.
    pub fn with_defaults(
        names: &'a mut [Record<NameEntry>],
        tokens: &'a mut [Record<Text<MAX_STORED_LEN>>],
    ) -> Result<MemoryCache<'a, O>, Refused<LentRecords<'a>>>
        ensures answer { is_ok result ≡ allowed DEFAULT_SERVER_NAMES DEFAULT_TOKENS_PER_SERVER (length names.old) (length tokens.old) }
        ensures made { IfOk result (λ c. c ≡ record { names = DEFAULT_SERVER_NAMES; tokens = DEFAULT_TOKENS_PER_SERVER; name_records = length names.old; token_records = length tokens.old; entries = [] }) }
        ensures refused { IfErr result (λ e. (e.refusal ≡ Capacity) × (e.back.0.now ≡ names.old) × (e.back.1.now ≡ tokens.old)) }
        ensures nothing { IfOk result (HoldsNothing (λ (c : Cache). holding c.entries)) }
    {
        MemoryCache::new(
            DEFAULT_SERVER_NAMES,
            DEFAULT_TOKENS_PER_SERVER,
            names,
            tokens,
        )
    }

    /// All lent records as they stand: just the names and the tokens that are held, and blanks.
    pub fn lent(&self) -> (&[Record<NameEntry>], &[Record<Text<MAX_STORED_LEN>>])
        ensures { Lent self.now result.0.now result.1.now }
    {
        self.shelf.lent()
    }

    /// The same, from which the cache then goes.
    pub fn into_records(self) -> LentRecords<'a>
        ensures { Lent self.entry result.0.now result.1.now }
    {
        self.shelf.into_records()
    }
}

/// The constants are those of the rules.
pub fn the_limits_are_those_of_the_rules()
    ensures most { (MAX_SERVER_NAMES ≡ 1024) × (MAX_TOKENS_PER_SERVER ≡ 16) }
    ensures usual { (DEFAULT_SERVER_NAMES ≡ 256) × (DEFAULT_TOKENS_PER_SERVER ≡ 2) }
{}

/// Clones of what a cache is lent are what they were made of.
pub fn clones_are_the_same<const N: usize>(text: &Text<N>)
    ensures names { ClonesAreTheSame (⟦<NameEntry as Clone>⟧.is_clone) }
    ensures texts { ClonesAreTheSame (⟦<Text<N> as Clone>⟧.is_clone) }
    ensures names_come { ClonesNeverFail (⟦<NameEntry as Clone>⟧.is_infallible) }
    ensures texts_come { ClonesNeverFail (⟦<Text<N> as Clone>⟧.is_infallible) }
{}

/// Every cache keeps to its limits, and to what its list is for: no name stands twice, none has no token or one twice.
pub fn a_cache_keeps_to_its_limits<O>(cache: &MemoryCache<O>)
    ensures { Kept cache.now.names cache.now.tokens cache.now.entries }
{
    let _ = &cache.shelf;
}

impl<'a, O: TakeOrder> TokenStore for MemoryCache<'a, O> {
    ghost holds = { λ c. holding c.entries };

    fn insert(&mut self, name: &str, token: &[u8]) -> Result<(), Refusal>
        ensures stores { Stores name.now token.now (holding self.old.entries) (holding self.new.entries) result }
        ensures answer { result ≡ insert_answer name.now token.now }
        ensures entries { self.new ≡ inserted name.now token.now self.old }
    {
        if name.len() > MAX_NAME_LEN || token.len() > MAX_STORED_LEN {
            return Err(Refusal::LongEntry);
        }
        self.shelf.store(
            name.as_bytes(),
            token,
            self.max_server_names,
            self.max_tokens_per_server,
        );
        Ok(())
    }

    fn take(&mut self, name: &str, out: &mut [u8]) -> Result<Option<usize>, Refusal>
        ensures takes { Takes name.now out.old out.new (holding self.old.entries) (holding self.new.entries) result }
        ensures answer { result ≡ take_answer O.place name.now out.old self.old }
        ensures out { out.new ≡ taken_into O.place name.now out.old self.old }
        ensures entries { self.new ≡ taken_from O.place name.now out.old self.old }
    {
        if out.len() < MAX_STORED_LEN {
            return Err(Refusal::SmallBuffer);
        }
        if name.len() > MAX_NAME_LEN {
            return Err(Refusal::LongEntry);
        }
        let Some(token) = self.shelf.take::<O>(name.as_bytes()) else {
            return Ok(None);
        };
        let token = token.as_slice();
        out[..token.len()].copy_from_slice(token);
        Ok(Some(token.len()))
    }
}
