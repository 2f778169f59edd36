use crate::{Chain, Pool, Record};
use std::test::Fail;

// A name with a chain of numbers.
#[derive(Clone, Copy)]
struct Name {
    id: u32,
    numbers: Chain,
}

// Whether a chain holds just these items, going along it from place to place.
fn holds(pool: &Pool<u32>, chain: Chain, items: &[u32]) -> bool {
    let mut at = pool.place(chain, 0);
    for item in items {
        let Some(place) = at else {
            return false;
        };
        if pool.item(place) != Some(*item) {
            return false;
        }
        at = pool.next(place);
    }
    at == None
}

fn push_all(pool: &mut Pool<u32>, chain: &mut Chain, items: &[u32]) {
    for item in items {
        let _ = pool.push_back(chain, *item);
    }
}

#[test]
fn chains_share_a_pool(rt: HostRuntime) -> Result<(), Fail> {
    let mut memory = [Record::new(0); 5];
    let Ok(mut pool) = Pool::new(&mut memory, 0) else {
        return Err("no pool".into());
    };
    let mut left = Chain::new();
    let mut right = Chain::new();
    push_all(&mut pool, &mut left, &[1, 2, 3]);
    let _ = pool.push_front(&mut right, 8);
    let _ = pool.push_front(&mut right, 7);
    let full = pool.push_back(&mut right, 9);
    let moved = pool.move_to_back(&mut left, 1);
    assert!(rt; full.is_none() && moved.is_some());
    assert!(rt; holds(&pool, left, &[1, 3, 2]) && holds(&pool, right, &[7, 8]));
    Ok(())
}

#[test]
fn records_come_back(rt: HostRuntime) -> Result<(), Fail> {
    let mut memory = [Record::new(0); 5];
    let Ok(mut pool) = Pool::new(&mut memory, 0) else {
        return Err("no pool".into());
    };
    let mut left = Chain::new();
    let mut right = Chain::new();
    push_all(&mut pool, &mut left, &[1, 2, 3]);
    push_all(&mut pool, &mut right, &[7, 8]);
    assert_eq!(rt; pool.remove(&mut left, 1), Some(2));
    assert_eq!(rt; pool.pop_front(&mut right), Some(7));
    assert_eq!(rt; pool.remove(&mut right, 1), None);
    pool.release(&mut left);
    push_all(&mut pool, &mut right, &[4, 5, 6, 7]);
    assert_eq!(rt; pool.free_count(), 0);
    assert!(rt; left.is_empty() && holds(&pool, right, &[8, 4, 5, 6, 7]));
    Ok(())
}

#[test]
fn names_have_numbers(rt: HostRuntime) -> Result<(), Fail> {
    let mut number_memory = [Record::new(0); 4];
    let Ok(mut numbers) = Pool::new(&mut number_memory, 0) else {
        return Err("no pool".into());
    };
    let mut ten = Name {
        id: 10,
        numbers: Chain::new(),
    };
    let mut twenty = Name { id: 20, ..ten };
    let mut name_memory = [Record::new(ten); 2];
    let Ok(mut names) = Pool::new(&mut name_memory, ten) else {
        return Err("no pool".into());
    };
    let mut all = Chain::new();
    push_all(&mut numbers, &mut ten.numbers, &[11, 12]);
    push_all(&mut numbers, &mut twenty.numbers, &[21]);
    let place = names.push_back(&mut all, ten);
    let _ = names.push_back(&mut all, twenty);
    push_all(&mut numbers, &mut ten.numbers, &[13]);
    let set = names.set_item(place.unwrap_or(0), ten);
    let moved = names.move_to_back(&mut all, 0);
    assert!(rt; set.is_some() && moved.is_some() && names.set_item(3, ten).is_none());
    let last = names.get(all, 1).ok_or("no last name")?;
    assert!(rt; last.id == ten.id && holds(&numbers, last.numbers, &[11, 12, 13]));
    Ok(())
}

#[test]
fn the_place_freed_last_is_used_first(rt: HostRuntime) -> Result<(), Fail> {
    let mut memory = [Record::new(0); 3];
    let Ok(mut pool) = Pool::new(&mut memory, 0) else {
        return Err("no pool".into());
    };
    let mut chain = Chain::new();
    for place in [3, 2, 1] {
        assert_eq!(rt; pool.push_back(&mut chain, place), Some(place));
    }
    assert_eq!(rt; pool.remove(&mut chain, 1), Some(2));
    assert_eq!(rt; pool.pop_front(&mut chain), Some(3));
    assert_eq!(rt; pool.push_back(&mut chain, 8), Some(3));
    assert_eq!(rt; pool.push_back(&mut chain, 9), Some(2));
    assert!(rt; holds(&pool, chain, &[1, 8, 9]));
    Ok(())
}

#[test]
fn what_is_freed_is_blank(rt: HostRuntime) -> Result<(), Fail> {
    let mut memory = [Record::new(9); 6];
    let Ok(mut pool) = Pool::new(&mut memory, 0) else {
        return Err("no pool".into());
    };
    let mut left = Chain::new();
    let mut right = Chain::new();
    push_all(&mut pool, &mut left, &[1, 2, 3]);
    push_all(&mut pool, &mut right, &[7, 8]);
    assert_eq!(rt; pool.remove(&mut left, 1), Some(2));
    pool.release(&mut right);
    let items = memory.map(|record| record.item);
    assert!(rt; items == [0, 0, 0, 3, 0, 1]);
    Ok(())
}
