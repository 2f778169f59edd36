ghost use Rattle.std.specs.Prelude.{◌≡◌, ◌^◌, length, is_ok, nat_lt, IfOk, IfErr};
ghost use Rattle.answers.specs.declared.Refusal.TheVariants.{Capacity};
ghost use Rattle.stateless_reset.specs.Tables.{fresh, Remembers, is_reset, has, Lent};

use crate::constant_time::constant_time_eq;
use crate::token::ResetToken;
use crate::{MIN_RESET_LEN, RESET_TOKEN_SIZE};
use answers::{Refusal, Refused};
use record_pool::{Chain, Pool, Record};
use std::marker::Model;

/// Remembers reset tokens that peers gave, in lent records.
#[derive(Drop)]
pub struct ResetTokenTable<'a> {
    pool: Pool<'a, ResetToken>,
    remembered: Chain,
}

// In clauses a table is how many places it has, and the list of the tokens that it remembers.
impl<'a> Model for ResetTokenTable<'a> {
    ghost use Rattle.stateless_reset.specs.Tables.{Table, table_of, Sound};

    ghost Value = { Table };

    ghost view = { λ t. table_of t.pool t.remembered };

    ghost invariant = { λ t. Sound t.pool t.remembered };
}

impl<'a> ResetTokenTable<'a> {
    /// A table that remembers nothing, with a place for a token in each of these records, which are then all blank. Refused by 7
    /// where they are more than 32 bits count: they come back as they were.
    pub fn new(
        records: &'a mut [Record<ResetToken>],
    ) -> Result<ResetTokenTable<'a>, Refused<&'a mut [Record<ResetToken>]>>
        ensures answer { is_ok result ≡ nat_lt (length records.old) (2 ^ 32) }
        ensures made { IfOk result (λ t. t ≡ fresh (length records.old)) }
        ensures refused { IfErr result (λ e. (e.refusal ≡ Capacity) × (e.back.now ≡ records.old)) }
    {
        let blank = ResetToken::from([0; RESET_TOKEN_SIZE]);
        let pool = Pool::new(records, blank)?;
        Ok(ResetTokenTable {
            pool,
            remembered: Chain::new(),
        })
    }

    // Whether a token with these bytes is remembered.
    fn has(&self, bytes: &[u8]) -> bool
        ensures { result ≡ has self.now.tokens bytes.now }
    {
        self.pool
            .items(self.remembered)
            .any(|token| constant_time_eq(token.as_bytes(), bytes))
    }

    /// Remembers a token. One that is remembered already takes no second place; another is refused by 44 where no place is left,
    /// and the table stays as it is.
    pub fn remember(&mut self, token: ResetToken) -> Result<(), Refusal>
        ensures { Remembers token self.old self.new result }
    {
        if self.has(token.as_bytes()) {
            return Ok(());
        }
        match self.pool.push_back(&mut self.remembered, token) {
            Some(_) => Ok(()),
            None => Err(Refusal::ResetTableFull),
        }
    }

    /// Whether a datagram is a stateless reset: it has at least 21 bytes, and its last 16 are those of a remembered token.
    pub fn is_reset(&self, datagram: &[u8]) -> bool
        ensures { result ≡ is_reset self.now.tokens datagram.now }
    {
        datagram.len() >= MIN_RESET_LEN && self.has(&datagram[datagram.len() - RESET_TOKEN_SIZE..])
    }

    /// The lent records as they stand: just the tokens that are remembered, and blanks.
    pub fn records(&self) -> &[Record<ResetToken>]
        ensures { Lent self.now result.now }
    {
        self.pool.records()
    }

    /// The same, from which the table then goes.
    pub fn into_records(self) -> &'a mut [Record<ResetToken>]
        ensures { Lent self.entry result.now }
    {
        self.pool.into_records()
    }
}
