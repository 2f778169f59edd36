use crate::{
    BenchKey, MAX_SIGNATURE_LEN, RESET_WORKING_LEN, ResetToken, ResetTokenTable, SigningKey,
    constant_time_eq,
};
use answers::Refusal;
use record_pool::Record;
use sealing::WORKING_LEN;
use sha256::HmacKey;
use std::test::Fail;

const KEY: [u8; 16] = [0, 1, 2, 3, 4, 5, 6, 7, 8, 9, 10, 11, 12, 13, 14, 15];

const SECRET: [u8; 32] = [
    0x00, 0x01, 0x02, 0x03, 0x04, 0x05, 0x06, 0x07, 0x08, 0x09, 0x0a, 0x0b, 0x0c, 0x0d, 0x0e, 0x0f,
    0x10, 0x11, 0x12, 0x13, 0x14, 0x15, 0x16, 0x17, 0x18, 0x19, 0x1a, 0x1b, 0x1c, 0x1d, 0x1e, 0x1f,
];

const ID: [u8; 4] = [0xaa, 0xbb, 0xcc, 0xdd];

const LONGEST_ID: [u8; 20] = [
    1, 2, 3, 4, 5, 6, 7, 8, 9, 10, 11, 12, 13, 14, 15, 16, 17, 18, 19, 20,
];

const HMAC_ID: [u8; 16] = [
    0x52, 0x6d, 0x4d, 0xc6, 0xb0, 0xb9, 0x89, 0x2c, 0x3d, 0x6e, 0x2c, 0x3e, 0x07, 0x26, 0x16, 0xa2,
];

const HMAC_NONE: [u8; 16] = [
    0xd3, 0x8b, 0x42, 0x09, 0x6d, 0x80, 0xf4, 0x5f, 0x82, 0x6b, 0x44, 0xa9, 0xd5, 0x60, 0x7d, 0xe7,
];

const HMAC_LONGEST: [u8; 16] = [
    0x8c, 0x92, 0x9d, 0x47, 0x24, 0x59, 0xf5, 0x7b, 0x21, 0xc9, 0x53, 0x7c, 0xd7, 0xac, 0xc0, 0x6c,
];

const BENCH_ID: [u8; 16] = [
    0xaa, 0xbc, 0xce, 0xe0, 0x04, 0x05, 0x06, 0x07, 0x08, 0x09, 0x0a, 0x0b, 0x0c, 0x0d, 0x0e, 0x0f,
];

const BENCH_LONGEST: [u8; 16] = [
    0x12, 0x15, 0x18, 0x1b, 0x09, 0x0b, 0x0d, 0x0f, 0x11, 0x13, 0x15, 0x17, 0x19, 0x1b, 0x1d, 0x1f,
];

const CASE_2: [u8; 32] = [
    0x5b, 0xdc, 0xc1, 0x46, 0xbf, 0x60, 0x75, 0x4e, 0x6a, 0x04, 0x24, 0x26, 0x08, 0x95, 0x75, 0xc7,
    0x5a, 0x00, 0x3f, 0x08, 0x9d, 0x27, 0x39, 0x83, 0x9d, 0xec, 0x58, 0xb9, 0x64, 0xec, 0x38, 0x43,
];

fn token<K: SigningKey>(key: &K, id: &[u8]) -> Result<[u8; 16], Refusal> {
    let mut working = [0xff; RESET_WORKING_LEN];
    let token = ResetToken::new(key, id, &mut working)?;
    Ok(*token.as_bytes())
}

fn blank() -> Record<ResetToken> {
    Record::new(ResetToken::from([0; 16]))
}

// What is expected here was computed with Python's `hmac`.
#[test]
fn tokens_under_hmac(rt: HostRuntime) -> Result<(), Fail> {
    let key = HmacKey::new(&SECRET);
    assert_eq!(rt; token(&key, &ID)?, HMAC_ID);
    assert_eq!(rt; token(&key, &[])?, HMAC_NONE);
    assert_eq!(rt; token(&key, &LONGEST_ID)?, HMAC_LONGEST);
    Ok(())
}

// What is expected here was summed up with Python.
#[test]
fn tokens_under_the_bench_key(rt: HostRuntime) -> Result<(), Fail> {
    let key = BenchKey::new(KEY);
    assert_eq!(rt; token(&key, &ID)?, BENCH_ID);
    assert_eq!(rt; token(&key, &[])?, KEY);
    assert_eq!(rt; token(&key, &LONGEST_ID)?, BENCH_LONGEST);
    Ok(())
}

// RFC 4231, test case 2, through the interface.
#[test]
fn a_signature_fits_or_is_refused(rt: HostRuntime) {
    let key = HmacKey::new(b"Jefe");
    let message = b"what do ya want for nothing?";
    let mut out = [9; MAX_SIGNATURE_LEN];
    let mut working = [0; WORKING_LEN];
    assert_eq!(rt; key.signature_len(), 32);
    assert_eq!(rt;
        SigningKey::sign(&key, message, &mut out[..31], &mut working),
        Err(Refusal::SmallBuffer)
    );
    assert_eq!(rt; out, [9; MAX_SIGNATURE_LEN]);
    assert_eq!(rt;
        SigningKey::sign(&key, message, &mut out, &mut working),
        Ok(32)
    );
    assert!(rt; out.starts_with(&CASE_2));
    assert!(rt; out.iter().skip(32).all(|byte| *byte == 9));
}

#[test]
fn just_the_working_bytes_are_wiped(rt: HostRuntime) -> Result<(), Fail> {
    let mut working = [0xff; 200];
    ResetToken::new(&BenchKey::new(KEY), &ID, &mut working)?;
    assert_eq!(rt; &working[..160], &[0; 160][..]);
    assert_eq!(rt; &working[160..], &[0xff; 40][..]);
    Ok(())
}

#[test]
fn refused_calls_leave_the_working_bytes(rt: HostRuntime) {
    let key = HmacKey::new(&KEY);
    let mut working = [0xff; RESET_WORKING_LEN];
    assert_eq!(rt;
        ResetToken::new(&key, &ID, &mut working[..159]),
        Err(Refusal::SmallBuffer)
    );
    assert_eq!(rt;
        ResetToken::new(&key, &[7; 21], &mut working[..159]),
        Err(Refusal::SmallBuffer)
    );
    assert_eq!(rt;
        ResetToken::new(&key, &[7; 21], &mut working),
        Err(Refusal::LongConnectionId)
    );
    assert_eq!(rt; working, [0xff; RESET_WORKING_LEN]);
}

#[test]
fn every_different_byte_is_seen(rt: HostRuntime) {
    for i in 0..16 {
        let mut other = KEY;
        other[i] ^= 0x10;
        assert!(rt; !constant_time_eq(&KEY, &other));
        assert!(rt; ResetToken::from(KEY) != ResetToken::from(other));
    }
    assert!(rt; constant_time_eq(&KEY, &KEY));
    assert!(rt; !constant_time_eq(&KEY, &KEY[..15]));
}

#[test]
fn the_end_of_a_datagram_tells(rt: HostRuntime) -> Result<(), Fail> {
    let mut records = [blank()];
    let Ok(mut table) = ResetTokenTable::new(&mut records) else {
        return Err("no table".into());
    };
    let mut datagram = [0x40; 1500];
    datagram[1484..].copy_from_slice(&KEY);
    assert!(rt; !table.is_reset(&datagram));
    assert_eq!(rt; table.remember(ResetToken::from(KEY)), Ok(()));
    assert!(rt; table.is_reset(&datagram));
    assert!(rt; table.is_reset(&datagram[1479..]));
    assert!(rt; !table.is_reset(&datagram[1480..]));
    assert!(rt; !table.is_reset(&datagram[..1499]));
    assert!(rt; !table.is_reset(&KEY));
    assert!(rt; !table.is_reset(&[]));
    Ok(())
}

#[test]
fn a_token_has_one_place(rt: HostRuntime) -> Result<(), Fail> {
    let mut records = [blank(); 2];
    let (one, two, three) = (
        ResetToken::from([1; 16]),
        ResetToken::from([2; 16]),
        ResetToken::from([3; 16]),
    );
    let Ok(mut table) = ResetTokenTable::new(&mut records) else {
        return Err("no table".into());
    };
    for (token, answer) in [
        (one, Ok(())),
        (one, Ok(())),
        (two, Ok(())),
        (three, Err(Refusal::ResetTableFull)),
        (two, Ok(())),
        (one, Ok(())),
    ] {
        assert_eq!(rt; table.remember(token), answer);
    }
    assert!(rt; !table.is_reset(&[3; 21]));
    let held = table.into_records();
    assert_eq!(rt;
        held.iter().filter(|record| record.item() == one).count(),
        1
    );
    assert_eq!(rt;
        held.iter().filter(|record| record.item() == two).count(),
        1
    );
    Ok(())
}

#[test]
fn a_table_without_places(rt: HostRuntime) -> Result<(), Fail> {
    let mut records: [Record<ResetToken>; 0] = [];
    let Ok(mut table) = ResetTokenTable::new(&mut records) else {
        return Err("no table".into());
    };
    assert_eq!(rt;
        table.remember(ResetToken::from(KEY)),
        Err(Refusal::ResetTableFull)
    );
    assert!(rt; !table.is_reset(&[0; 21]));
    Ok(())
}
