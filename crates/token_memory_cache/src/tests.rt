use crate::{LentRecords, NameEntry, NewestFirstCache, Text, TokenMemoryCache};
use answers::{Refusal, Refused};
use record_pool::Record;
use std::test::Fail;
use token_store::{MAX_NAME_LEN, MAX_STORED_LEN, TokenStore};

fn blank_name() -> Record<NameEntry> {
    Record::new(NameEntry::new())
}

fn blank_token() -> Record<Text<MAX_STORED_LEN>> {
    Record::new(Text::new())
}

fn is_refused(made: &Result<TokenMemoryCache<'_>, Refused<LentRecords<'_>>>) -> bool {
    match made {
        Ok(_) => false,
        Err(refused) => refused.refusal == Refusal::Capacity,
    }
}

// How many of these records hold a token that is not empty.
fn tokens_in(records: &[Record<Text<MAX_STORED_LEN>>]) -> usize {
    records
        .iter()
        .filter(|record| !record.item().is(b""))
        .count()
}

// Whether a take hands out this token, at the front of a buffer of which no other byte changes.
fn takes<T: TokenStore>(cache: &mut T, name: &str, token: &[u8]) -> bool {
    let mut out = [7; MAX_STORED_LEN];
    let Ok(Some(len)) = cache.take(name, &mut out) else {
        return false;
    };
    out.starts_with(token) && len == token.len() && out[len..].iter().all(|byte| *byte == 7)
}

// Whether a take answers none, and changes no byte.
fn takes_none<T: TokenStore>(cache: &mut T, name: &str) -> bool {
    let mut out = [7; MAX_STORED_LEN];
    cache.take(name, &mut out) == Ok(None) && out.iter().all(|byte| *byte == 7)
}

#[test]
fn the_oldest_token_comes_first(rt: HostRuntime) -> Result<(), Fail> {
    let mut names = [blank_name(); 2];
    let mut tokens = [blank_token(); 6];
    let Ok(mut cache) = TokenMemoryCache::new(2, 3, &mut names, &mut tokens) else {
        return Err("no cache".into());
    };
    for token in [b"one", b"two", b"six"] {
        cache.insert("crane", token)?;
    }
    assert!(rt; takes(&mut cache, "crane", b"one") && takes(&mut cache, "crane", b"two"));
    assert!(rt; takes_none(&mut cache, "dock"));
    assert!(rt; takes(&mut cache, "crane", b"six") && takes_none(&mut cache, "crane"));
    Ok(())
}

#[test]
fn the_newest_token_comes_first(rt: HostRuntime) -> Result<(), Fail> {
    let mut names = [blank_name(); 2];
    let mut tokens = [blank_token(); 6];
    let Ok(mut cache) = NewestFirstCache::new(2, 3, &mut names, &mut tokens) else {
        return Err("no cache".into());
    };
    for token in [b"one", b"two", b"six", b"two", b"ten"] {
        cache.insert("crane", token)?;
    }
    assert!(rt; takes(&mut cache, "crane", b"ten") && takes(&mut cache, "crane", b"six"));
    cache.insert("crane", b"elf")?;
    assert!(rt; takes_none(&mut cache, "dock") && takes(&mut cache, "crane", b"elf"));
    assert!(rt; takes(&mut cache, "crane", b"two") && takes_none(&mut cache, "crane"));
    Ok(())
}

#[test]
fn a_full_name_drops_its_oldest(rt: HostRuntime) -> Result<(), Fail> {
    let mut names = [blank_name(); 1];
    let mut tokens = [blank_token(); 2];
    let Ok(mut cache) = TokenMemoryCache::new(1, 2, &mut names, &mut tokens) else {
        return Err("no cache".into());
    };
    for token in [b"one", b"two", b"two", b"six"] {
        cache.insert("crane", token)?;
    }
    assert!(rt; takes(&mut cache, "crane", b"two") && takes(&mut cache, "crane", b"six"));
    assert!(rt; takes_none(&mut cache, "crane"));
    Ok(())
}

#[test]
fn the_name_least_recently_used_is_pushed_out(rt: HostRuntime) -> Result<(), Fail> {
    let mut names = [blank_name(); 2];
    let mut tokens = [blank_token(); 4];
    let Ok(mut cache) = TokenMemoryCache::new(2, 2, &mut names, &mut tokens) else {
        return Err("no cache".into());
    };
    for (name, token) in [("a", b"one"), ("b", b"two"), ("a", b"one"), ("c", b"six")] {
        cache.insert(name, token)?;
    }
    assert!(rt; takes_none(&mut cache, "b"));
    assert!(rt; takes(&mut cache, "a", b"one") && takes(&mut cache, "c", b"six"));
    assert!(rt; takes_none(&mut cache, "a") && takes_none(&mut cache, "c"));
    Ok(())
}

#[test]
fn a_take_counts_as_a_use(rt: HostRuntime) -> Result<(), Fail> {
    let mut names = [blank_name(); 2];
    let mut tokens = [blank_token(); 4];
    let Ok(mut cache) = TokenMemoryCache::new(2, 2, &mut names, &mut tokens) else {
        return Err("no cache".into());
    };
    for (name, token) in [("a", b"one"), ("a", b"two"), ("b", b"six")] {
        cache.insert(name, token)?;
    }
    assert!(rt; takes(&mut cache, "a", b"one"));
    cache.insert("c", b"ten")?;
    assert!(rt; takes_none(&mut cache, "b") && takes(&mut cache, "a", b"two"));
    Ok(())
}

#[test]
fn a_limit_of_zero_keeps_nothing(rt: HostRuntime) -> Result<(), Fail> {
    let mut names = [blank_name(); 1];
    let mut tokens = [blank_token(); 1];
    let Ok(mut cache) = TokenMemoryCache::new(0, 1, &mut names, &mut tokens) else {
        return Err("no cache".into());
    };
    cache.insert("crane", b"one")?;
    assert!(rt; takes_none(&mut cache, "crane"));
    let Ok(mut cache) = TokenMemoryCache::new(1, 0, &mut names, &mut tokens) else {
        return Err("no cache".into());
    };
    cache.insert("crane", b"one")?;
    assert!(rt; takes_none(&mut cache, "crane"));
    Ok(())
}

#[test]
fn limits_and_records_are_tested(rt: HostRuntime) -> Result<(), Fail> {
    let mut names = [blank_name(); 2];
    let mut tokens = [blank_token(); 4];
    for (most_names, most_tokens) in [(1025, 0), (0, 17), (3, 1), (2, 3)] {
        let made = TokenMemoryCache::new(most_names, most_tokens, &mut names, &mut tokens);
        assert!(rt; is_refused(&made));
    }
    for (most_names, most_tokens) in [(2, 2), (1, 4), (0, 16)] {
        let made = TokenMemoryCache::new(most_names, most_tokens, &mut names, &mut tokens);
        assert!(rt; made.is_ok());
    }
    let made = TokenMemoryCache::with_defaults(&mut names, &mut tokens);
    assert!(rt; is_refused(&made));
    Ok(())
}

#[test]
fn long_names_and_tokens_are_refused(rt: HostRuntime) -> Result<(), Fail> {
    let mut names = [blank_name(); 1];
    let mut tokens = [blank_token(); 1];
    let Ok(mut cache) = TokenMemoryCache::new(1, 1, &mut names, &mut tokens) else {
        return Err("no cache".into());
    };
    let bytes = [b'a'; MAX_NAME_LEN + 1];
    let text = str::from_utf8(&bytes)?;
    let longest = [9; MAX_STORED_LEN];
    let mut out = [7; MAX_STORED_LEN];
    assert!(rt; cache.insert(text, &longest) == Err(Refusal::LongEntry));
    assert!(rt; cache.insert("", &[9; MAX_STORED_LEN + 1]) == Err(Refusal::LongEntry));
    assert!(rt; cache.take(text, &mut out) == Err(Refusal::LongEntry));
    assert!(rt; cache.take(text, &mut out[1..]) == Err(Refusal::SmallBuffer));
    cache.insert(&text[1..], &longest)?;
    assert!(rt; takes(&mut cache, &text[1..], &longest));
    cache.insert("", b"")?;
    assert!(rt; takes(&mut cache, "", b"") && takes_none(&mut cache, ""));
    Ok(())
}

#[test]
fn what_is_taken_or_dropped_is_blank(rt: HostRuntime) -> Result<(), Fail> {
    let mut names = [blank_name(); 2];
    let mut tokens = [Record::new(Text::of(b"old")); 6];
    let refused = is_refused(&TokenMemoryCache::new(2, 4, &mut names, &mut tokens));
    assert!(rt; refused && tokens_in(&tokens) == 6);
    let Ok(mut cache) = TokenMemoryCache::new(2, 2, &mut names, &mut tokens) else {
        return Err("no cache".into());
    };
    assert_eq!(rt; tokens_in(cache.lent().1), 0);
    for token in [b"one", b"two", b"six"] {
        cache.insert("crane", token)?;
    }
    cache.insert("dock", b"ten")?;
    assert_eq!(rt; tokens_in(cache.lent().1), 3);
    assert!(rt; takes(&mut cache, "crane", b"two"));
    cache.insert("yard", b"elf")?;
    assert!(rt; takes(&mut cache, "yard", b"elf"));
    assert_eq!(rt; tokens_in(&tokens), 1);
    assert!(rt; tokens.iter().any(|record| record.item().is(b"six")));
    Ok(())
}
