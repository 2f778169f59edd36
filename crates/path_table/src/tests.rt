use crate::{Grant, MAX_OPEN_GRANTS, Path, PathTable};
use answers::{Refusal, Refused};
use gate::Accepted;
use record_pool::Record;
use std::process::Abort;
use std::test::Fail;
use wire::{IpAddr, SocketAddr};

// An arrival that was accepted.
fn accepted(validated: bool) -> Accepted {
    Accepted {
        address: SocketAddr {
            ip: IpAddr::V4([192, 0, 2, 7]),
            port: 4433,
        },
        validated,
    }
}

// A path that must open, and a grant that must be given: where not, there is nothing to go on with.
fn open(rt: &impl Abort, table: &mut PathTable<'_>, validated: bool) -> Path {
    match table.open(accepted(validated)) {
        Ok(path) => path,
        Err(_) => rt.abort(),
    }
}

fn grant(rt: &impl Abort, table: &mut PathTable<'_>, path: &Path, bytes: u32) -> Grant {
    match table.grant(path, bytes) {
        Ok(grant) => grant,
        Err(_) => rt.abort(),
    }
}

// What must be taken, or given back with this number.
fn taken<T>(rt: &impl Abort, answer: Result<(), Refused<T>>) {
    match answer {
        Ok(()) => {}
        Err(_) => rt.abort(),
    }
}

fn back<T>(rt: &impl Abort, answer: Result<(), Refused<T>>, number: u8) -> T {
    match answer {
        Err(Refused { refusal, back }) if refusal.number() == number => back,
        _ => rt.abort(),
    }
}

// What `grant` is refused by.
fn refused(rt: &impl Abort, answer: Result<Grant, Refusal>) -> u8 {
    match answer {
        Ok(_) => rt.abort(),
        Err(refusal) => refusal.number(),
    }
}

#[test]
fn three_times_what_came(rt: HostRuntime) -> Result<(), Fail> {
    let mut memory = [Record::new(None); 1];
    let Ok(mut table) = PathTable::new(&mut memory) else {
        return Err("no table".into());
    };
    let path = open(&rt, &mut table, false);
    assert_eq!(rt; refused(&rt, table.grant(&path, 1)), 41);
    assert!(rt; table.receive(&path, 400).is_ok());
    let whole = grant(&rt, &mut table, &path, 1_200);
    assert_eq!(rt; refused(&rt, table.grant(&path, 1)), 41);
    let whole = back(&rt, table.spend(&path, whole, 1_201), 41);
    taken(&rt, table.spend(&path, whole, 1_000));
    let rest = grant(&rt, &mut table, &path, 200);
    assert_eq!(rt; refused(&rt, table.grant(&path, 1)), 41);
    let path = back(&rt, table.close(path), 43);
    assert!(rt; table.validate(&path).is_ok());
    let free = grant(&rt, &mut table, &path, 65_535);
    assert_eq!(rt; refused(&rt, table.grant(&path, 65_536)), 41);
    taken(&rt, table.spend(&path, rest, 0));
    let path = back(&rt, table.close(path), 43);
    taken(&rt, table.spend(&path, free, 65_535));
    taken(&rt, table.close(path));
    Ok(())
}

#[test]
fn what_another_table_gave_does_not_fit(rt: HostRuntime) -> Result<(), Fail> {
    let mut here_memory = [Record::new(None); 2];
    let mut there_memory = [Record::new(None); 2];
    let Ok(mut here) = PathTable::new(&mut here_memory) else {
        return Err("no table".into());
    };
    let Ok(mut there) = PathTable::new(&mut there_memory) else {
        return Err("no other table".into());
    };
    let path = open(&rt, &mut there, true);
    let other = open(&rt, &mut there, true);
    let held = grant(&rt, &mut there, &path, 1);
    assert!(rt; here.receive(&path, 1).is_err() && here.validate(&path).is_err());
    assert_eq!(rt; refused(&rt, here.grant(&path, 65_536)), 42);
    let held = back(&rt, here.spend(&path, held, 2), 42);
    let held = back(&rt, there.spend(&other, held, 2), 42);
    let path = back(&rt, here.close(path), 42);
    taken(&rt, there.spend(&path, held, 1));
    taken(&rt, there.close(path));
    taken(&rt, there.close(other));
    Ok(())
}

#[test]
fn closed_records_are_used_again(rt: HostRuntime) -> Result<(), Fail> {
    let mut memory = [Record::new(None); 2];
    let Ok(mut table) = PathTable::new(&mut memory) else {
        return Err("no table".into());
    };
    let first = open(&rt, &mut table, false);
    let second = open(&rt, &mut table, false);
    assert!(rt; table.receive(&first, 1_200).is_ok());
    let full = match table.open(accepted(true)) {
        Ok(_) => rt.abort(),
        Err(refusal) => refusal.number(),
    };
    assert_eq!(rt; full, 42);
    taken(&rt, table.close(first));
    let third = open(&rt, &mut table, false);
    assert_eq!(rt; refused(&rt, table.grant(&third, 1)), 41);
    taken(&rt, table.close(second));
    taken(&rt, table.close(third));
    Ok(())
}

#[test]
fn lent_memory_begins_with_nothing_open(rt: HostRuntime) -> Result<(), Fail> {
    let mut memory = [Record::new(None); 2];
    let Ok(mut table) = PathTable::new(&mut memory) else {
        return Err("no table".into());
    };
    let path = open(&rt, &mut table, true);
    let held = grant(&rt, &mut table, &path, 5);
    assert_eq!(rt; held.bytes(), 5);
    let ended = table.end();
    path.lapse(&ended);
    held.lapse(&ended);
    let Ok(mut table) = PathTable::new(&mut memory) else {
        return Err("no second table".into());
    };
    let one = open(&rt, &mut table, false);
    let two = open(&rt, &mut table, false);
    taken(&rt, table.close(two));
    taken(&rt, table.close(one));
    Ok(())
}

// A grant that lapses by another table's end is still open in its own.
#[test]
fn a_thousand_grants_are_open(rt: HostRuntime) -> Result<(), Fail> {
    let mut memory = [Record::new(None); 1];
    let mut no_memory = [Record::new(None); 0];
    let Ok(mut table) = PathTable::new(&mut memory) else {
        return Err("no table".into());
    };
    let Ok(none) = PathTable::new(&mut no_memory) else {
        return Err("no other table".into());
    };
    let ended = none.end();
    let path = open(&rt, &mut table, false);
    for _ in 1..MAX_OPEN_GRANTS {
        grant(&rt, &mut table, &path, 0).lapse(&ended);
    }
    let last = grant(&rt, &mut table, &path, 0);
    assert_eq!(rt; refused(&rt, table.grant(&path, 0)), 41);
    taken(&rt, table.spend(&path, last, 0));
    let last = grant(&rt, &mut table, &path, 0);
    let path = back(&rt, table.close(path), 43);
    taken(&rt, table.spend(&path, last, 0));
    path.lapse(&ended);
    Ok(())
}
