ghost use Rattle.std.specs.Prelude.{◌≡◌, ℕ, ◌^◌, length, replicate, is_ok, IfOk, IfErr, nat_lt, Some as is_open, None as is_free};
ghost use Rattle.answers.specs.declared.Refusal.TheVariants.{Capacity};
ghost use Rattle.answers.specs.Successions.{Adds};
ghost use Rattle.path_table.specs.declared.meter.Meter.{Meter};
ghost use Rattle.path_table.specs.Meters.{Sound};
ghost use Rattle.path_table.specs.Paths.{path as path_of, with_path, meter_at, Opens, Turns};
ghost use Rattle.path_table.specs.Paths.Act.{validates, receives, grants, spends, closes};
ghost use Rattle.path_table.specs.Laws.{Step, done, given};
ghost use Rattle.path_table.specs.Laws.Call.{opening, turning};

use crate::meter::Meter;
use answers::{Refusal, Refused};
use gate::Accepted;
use record_pool::{Chain, Pool, Record};
use std::marker::Model;

/// A path that is open. It can neither be copied nor let go: closing it spends it, or it lapses by the `Ended` of a table.
pub struct Path {
    name: u32,
    chain: Chain,
}

// In clauses a path is its name.
impl Model for Path {
    ghost use Rattle.std.specs.Prelude.{ℕ};
    ghost use Rattle.path_table.specs.Tables.{Named};

    ghost Value = { ℕ };

    ghost view = { λ p. p.name };

    ghost invariant = { λ p. Named p.name p.chain };
}

/// Leave to send so many bytes on a path. It can neither be copied nor let go: it is used up as bytes sent, none of them perhaps, or
/// it lapses by the `Ended` of a table.
pub struct Grant {
    path: u32,
    bytes: u32,
}

impl Grant {
    /// How many bytes it is for, 65,535 at most.
    pub fn bytes(&self) -> u32
        ensures { result ≡ self.now.bytes }
    {
        self.bytes
    }
}

/// The paths that are open, in lent memory: at most one for each record.
#[derive(Drop)]
pub struct PathTable<'a> {
    pool: Pool<'a, Option<Meter>>,
}

// In clauses a table is, for each name from 1 on, the path that is open under it, if one is.
impl<'a> Model for PathTable<'a> {
    ghost use Rattle.path_table.specs.Paths.{Paths};
    ghost use Rattle.path_table.specs.Tables.{paths, Standing};

    ghost Value = { Paths };

    ghost view = { λ t. paths t.pool };

    ghost invariant = { λ t. Standing t.pool };
}

impl<'a> PathTable<'a> {
    /// A table in which no path is open, whatever the records held before. More records than 32 bits count are refused by 7, and
    /// come back as they were.
    pub fn new(
        records: &'a mut [Record<Option<Meter>>],
    ) -> Result<PathTable<'a>, Refused<&'a mut [Record<Option<Meter>>]>>
        ensures answer { is_ok result ≡ nat_lt (length records.old) (2 ^ 32) }
        ensures made { IfOk result (λ t. t ≡ replicate (length records.old) is_free) }
        ensures refused { IfErr result (λ e. (e.refusal ≡ Capacity) × (e.back.now ≡ records.old)) }
    {
        let pool = Pool::new(records, None)?;
        Ok(PathTable { pool })
    }

    /// Opens a path for an accepted arrival, validated if that was: nothing is counted, granted or sent there yet. Refused by 42
    /// just where a path is open in every record; nothing is altered then.
    pub fn open(&mut self, accepted: Accepted) -> Result<Path, Refusal>
        ensures opens { Opens accepted.validated self.old self.new result }
        ensures adds { Adds Step (opening accepted.validated result) self.old self.new }
    {
        let mut chain = Chain::new();
        let meter = Meter::fresh(accepted.validated);
        let Some(name) = self.pool.push_front(&mut chain, Some(meter)) else {
            return Err(Refusal::NoPath);
        };
        Ok(Path { name, chain })
    }

    // What is counted of a path that is open here.
    fn meter(&self, path: &Path) -> Result<Meter, Refusal>
        ensures answer { result ≡ meter_at (path_of self.now path.now) }
        ensures sound { IfOk result Sound }
    {
        self.pool.item(path.name).flatten().ok_or(Refusal::NoPath)
    }

    // Writes what is counted of a path that is open here.
    fn set(&mut self, path: &Path, meter: Meter)
        requires open { (m : Meter) × (path_of self.old path.now ≡ is_open m) }
        requires sound { Sound meter }
        ensures { self.new ≡ with_path self.old path.now (is_open meter) }
    {
        self.pool.set_item(path.name, Some(meter));
    }

    /// The address of a path has been validated: from now on it counts no bytes, and its grants have no other limits than their own
    /// size and number. Grants that are open stay so. Refused by 42 where the path is not open here.
    pub fn validate(&mut self, path: &Path) -> Result<(), Refusal>
        ensures turns { Turns path.now validates self.old self.new result }
        ensures adds { Adds Step (turning path.now validates result) self.old self.new }
    {
        let meter = self.meter(path)?;
        self.set(path, meter.validate());
        Ok(())
    }

    /// So many bytes came on a path: they are counted, up to 2^40, where it is not validated. Refused by 42 where the path is not
    /// open here.
    pub fn receive(&mut self, path: &Path, bytes: u64) -> Result<(), Refusal>
        ensures turns { Turns path.now (receives bytes) self.old self.new result }
        ensures adds { Adds Step (turning path.now (receives bytes) result) self.old self.new }
    {
        let meter = self.meter(path)?;
        self.set(path, meter.receive(bytes));
        Ok(())
    }

    /// A grant to send so many bytes on a path. Refused, and nothing altered, by 42 where the path is not open here; then by 41 for
    /// more than 65,535 bytes, with 1,000 grants open there, or where the path is not validated and these bytes, those sent and
    /// those in open grants would be more than three times the bytes counted.
    pub fn grant(&mut self, path: &Path, bytes: u32) -> Result<Grant, Refusal>
        ensures turns { Turns path.now (grants bytes) self.old self.new (done result) }
        ensures grant { IfOk result (λ g. g ≡ record { path = path.now; bytes = bytes }) }
        ensures adds { Adds Step (turning path.now (grants bytes) (done result)) self.old self.new }
    {
        let meter = self.meter(path)?;
        self.set(path, meter.grant(bytes)?);
        Ok(Grant {
            path: path.name,
            bytes,
        })
    }

    /// Uses a grant of a path up, as so many bytes sent; the rest is returned. Refused, with the grant given back and nothing
    /// altered, by 42 where the path is not open here, the grant is another path's, no grant is open there, or fewer bytes are in
    /// open grants; then by 41 for more bytes sent than granted.
    pub fn spend(&mut self, path: &Path, grant: Grant, sent: u32) -> Result<(), Refused<Grant>>
        ensures turns { Turns path.now (spends grant.path grant.bytes sent) self.old self.new (given result) }
        ensures back { IfErr result (λ r. r.back ≡ grant) }
        ensures adds { Adds Step (turning path.now (spends grant.path grant.bytes sent) (given result)) self.old self.new }
    {
        let spent = match self.meter(path) {
            Ok(meter) if grant.path == path.name => meter.spend(grant.bytes, sent),
            _ => Err(Refusal::NoPath),
        };
        match spent {
            Ok(meter) => {
                self.set(path, meter);
                let Grant { path: _, bytes: _ } = grant;
                Ok(())
            }
            Err(refusal) => Err(Refused {
                refusal,
                back: grant,
            }),
        }
    }

    /// Closes a path, whose record is then free for another. Refused, with the path given back and nothing altered, by 42 where it
    /// is not open here, then by 43 where grants are open there.
    pub fn close(&mut self, path: Path) -> Result<(), Refused<Path>>
        ensures turns { Turns path closes self.old self.new (given result) }
        ensures back { IfErr result (λ r. r.back ≡ path) }
        ensures adds { Adds Step (turning path closes (given result)) self.old self.new }
    {
        let refusal = match self.meter(&path) {
            Ok(meter) if meter.owes() => Refusal::GrantsOpen,
            Ok(_) => {
                self.free(path);
                return Ok(());
            }
            Err(refusal) => refusal,
        };
        Err(Refused {
            refusal,
            back: path,
        })
    }

    // Frees the record of a path that is open here.
    fn free(&mut self, path: Path)
        requires open { (m : Meter) × (path_of self.old path ≡ is_open m) }
        ensures { self.new ≡ with_path self.old path is_free }
    {
        let Path { name: _, mut chain } = path;
        self.pool.release(&mut chain);
    }

    /// Ends the table, so that what it gave may lapse. The lent memory is its owner's again.
    pub fn end(self) -> Ended {
        let PathTable { pool: _ } = self;
        Ended { _ended: () }
    }
}

/// A table has ended: what it gave may lapse. It serves for the handles of other tables too: what lapses so stays open where it was
/// given, and is owed there.
#[derive(Drop)]
pub struct Ended {
    _ended: (),
}

impl Path {
    /// Lets a path go, once its table has ended. In a table that has not, it stays open.
    pub fn lapse(self, _ended: &Ended)
        ensures { result ≡ tt }
    {
        let Path { name: _, chain: _ } = self;
    }
}

impl Grant {
    /// Lets a grant go, once its table has ended. In a table that has not, it stays open, and its bytes owed.
    pub fn lapse(self, _ended: &Ended)
        ensures { result ≡ tt }
    {
        let Grant { path: _, bytes: _ } = self;
    }
}
