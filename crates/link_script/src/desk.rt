// The paths and the grants of a script, which it has by numbers of its own.
ghost use Rattle.std.specs.Prelude.{◌≡◌, None as nothing};

use answers::{Refusal, Refused};
use gate::Accepted;
use path_table::{Ended, Grant, Path, PathTable};
use std::mem;
use thiserror::Error;

// So many numbers a script has for its paths: one more than the paths that it is lent records for.
pub(crate) const PATHS: usize = 4;

pub(crate) const LENT_PATHS: usize = 3;

// So many it has for its grants.
pub(crate) const GRANTS: usize = 8;

// Why a call on a path is not made, or is refused.
#[derive(Clone, Copy, PartialEq, Eq, Debug, Error)]
pub(crate) enum Unmade {
    #[error("taken")]
    Taken,
    #[error("no accept")]
    NoAccept,
    #[error("no path")]
    NoPath,
    #[error("no grant")]
    NoGrant,
    #[error(transparent)]
    Refused(#[from] Refusal),
}

// The table, and what it gave.
pub(crate) struct Desk<'a> {
    table: PathTable<'a>,
    paths: [Option<Path>; PATHS],
    grants: [Option<Grant>; GRANTS],
}

// Puts a thing in a place where none is.
fn put<T>(place: &mut Option<T>, thing: T)
    requires { place.old ≡ nothing }
{
    match mem::replace(place, Some(thing)) {
        None => {}
        Some(_) => unreachable!(),
    }
}

fn lapse_path(path: Option<Path>, ended: &Ended) {
    if let Some(path) = path {
        path.lapse(ended);
    }
}

fn lapse_grant(grant: Option<Grant>, ended: &Ended) {
    if let Some(grant) = grant {
        grant.lapse(ended);
    }
}

impl<'a> Desk<'a> {
    pub(crate) fn new(table: PathTable<'a>) -> Desk<'a> {
        Desk {
            table,
            paths: [None, None, None, None],
            grants: [None, None, None, None, None, None, None, None],
        }
    }

    // Ends the table: what it gave lapses. (An array of what can't be let go has no `map`.)
    pub(crate) fn end(self) {
        let Desk {
            table,
            paths: [a, b, c, d],
            grants: [e, f, g, h, i, j, k, l],
        } = self;
        let ended = table.end();
        lapse_path(a, &ended);
        lapse_path(b, &ended);
        lapse_path(c, &ended);
        lapse_path(d, &ended);
        lapse_grant(e, &ended);
        lapse_grant(f, &ended);
        lapse_grant(g, &ended);
        lapse_grant(h, &ended);
        lapse_grant(i, &ended);
        lapse_grant(j, &ended);
        lapse_grant(k, &ended);
        lapse_grant(l, &ended);
    }

    // Opens a path under a number that is free. The arrival is used up if it opens.
    pub(crate) fn open(
        &mut self,
        path: usize,
        accepted: &mut Option<Accepted>,
    ) -> Result<(), Unmade> {
        let Some(place) = self.paths.get_mut(path) else {
            return Err(Unmade::NoPath);
        };
        if place.is_some() {
            return Err(Unmade::Taken);
        }
        let Some(arrival) = *accepted else {
            return Err(Unmade::NoAccept);
        };
        put(place, self.table.open(arrival)?);
        *accepted = None;
        Ok(())
    }

    pub(crate) fn validate(&mut self, path: usize) -> Result<(), Unmade> {
        let Some(Some(path)) = self.paths.get(path) else {
            return Err(Unmade::NoPath);
        };
        Ok(self.table.validate(path)?)
    }

    pub(crate) fn receive(&mut self, path: usize, bytes: u64) -> Result<(), Unmade> {
        let Some(Some(path)) = self.paths.get(path) else {
            return Err(Unmade::NoPath);
        };
        Ok(self.table.receive(path, bytes)?)
    }

    // A grant under a number that is free.
    pub(crate) fn grant(&mut self, path: usize, grant: usize, bytes: u32) -> Result<(), Unmade> {
        let Some(place) = self.grants.get_mut(grant) else {
            return Err(Unmade::NoGrant);
        };
        if place.is_some() {
            return Err(Unmade::Taken);
        }
        let Some(Some(path)) = self.paths.get(path) else {
            return Err(Unmade::NoPath);
        };
        put(place, self.table.grant(path, bytes)?);
        Ok(())
    }

    pub(crate) fn spend(&mut self, path: usize, grant: usize, sent: u32) -> Result<(), Unmade> {
        let Some(Some(path)) = self.paths.get(path) else {
            return Err(Unmade::NoPath);
        };
        let Some(place) = self.grants.get_mut(grant) else {
            return Err(Unmade::NoGrant);
        };
        let Some(grant) = place.take() else {
            return Err(Unmade::NoGrant);
        };
        match self.table.spend(path, grant, sent) {
            Ok(()) => Ok(()),
            Err(Refused { refusal, back }) => {
                put(place, back);
                Err(refusal.into())
            }
        }
    }

    pub(crate) fn close(&mut self, path: usize) -> Result<(), Unmade> {
        let Some(place) = self.paths.get_mut(path) else {
            return Err(Unmade::NoPath);
        };
        let Some(path) = place.take() else {
            return Err(Unmade::NoPath);
        };
        match self.table.close(path) {
            Ok(()) => Ok(()),
            Err(Refused { refusal, back }) => {
                put(place, back);
                Err(refusal.into())
            }
        }
    }
}
