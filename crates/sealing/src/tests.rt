use super::*;
use answers::{Cause, Fault};
use std::test::Fail;
use wire::{ConnectionId, IpAddr, SocketAddr, TokenPayload};

const KEY: [u8; 16] = [0, 1, 2, 3, 4, 5, 6, 7, 8, 9, 10, 11, 12, 13, 14, 15];

const VALIDATION: TokenPayload = TokenPayload::Validation {
    ip: IpAddr::V4([192, 0, 2, 7]),
    issued: 1000,
};

// content, check bytes, nonce: summed up with Python from the rules in docs/RULES.md
const TOKEN: [u8; 46] = [
    0x01, 0x00, 0xc0, 0x00, 0x02, 0x07, 0x00, 0x00, 0x00, 0x00, 0x00, 0x00, 0x03, 0xe8, 0x08, 0x01,
    0xc2, 0x03, 0x06, 0x0c, 0x06, 0x07, 0x11, 0x09, 0x0a, 0x0b, 0x0f, 0xf5, 0x0e, 0x0f, 0x07, 0x00,
    0x00, 0x00, 0x00, 0x00, 0x00, 0x00, 0x09, 0x00, 0x00, 0x00, 0x00, 0x00, 0x00, 0x00,
];

fn cause_of(token: &[u8]) -> Option<Cause> {
    let mut working = [0; WORKING_LEN];
    match decode_token(&BenchScheme::new(KEY), token, &mut working) {
        Ok(_) => None,
        Err(cause) => Some(cause),
    }
}

#[test]
fn a_validation_token(rt: HostRuntime) {
    let scheme = BenchScheme::new(KEY);
    let mut working = [5; WORKING_LEN];
    let mut out = [9; MAX_TOKEN_LEN];
    assert_eq!(rt;
        encode_token(
            &scheme,
            &VALIDATION,
            Nonce::new(7, 9),
            &mut out,
            &mut working,
        )
        .ok(),
        Some(46)
    );
    assert_eq!(rt; &out[0..46], &TOKEN[..]);
    assert_eq!(rt; &out[46..], &[9; 35][..]);
    assert_eq!(rt; working, [0; WORKING_LEN]);
}

#[test]
fn the_longest_token(rt: HostRuntime) -> Result<(), Fail> {
    let address = SocketAddr {
        ip: IpAddr::V6([1; 16]),
        port: 1,
    };
    let payload = TokenPayload::Retry {
        address,
        orig_dst_cid: ConnectionId::new(&[2; 20])?,
        issued: 3,
    };
    let mut working = [5; WORKING_LEN];
    let mut out = [9; MAX_TOKEN_LEN];
    let scheme = BenchScheme::new(KEY);
    assert_eq!(rt;
        encode_token(&scheme, &payload, Nonce::new(7, 9), &mut out, &mut working).ok(),
        Some(81)
    );
    Ok(())
}

#[test]
fn small_buffers(rt: HostRuntime) -> Result<(), Fail> {
    let scheme = BenchScheme::new(KEY);
    let mut working = [5; WORKING_LEN];
    let mut out = [9; MAX_TOKEN_LEN];
    let Err(back) = encode_token(
        &scheme,
        &VALIDATION,
        Nonce::new(7, 9),
        &mut out[0..80],
        &mut working,
    ) else {
        return Err(Fail::new("a buffer of 80 bytes"));
    };
    assert_eq!(rt; back.refusal, Refusal::SmallBuffer);
    assert_eq!(rt;
        encode_token(&scheme, &VALIDATION, back.back, &mut out, &mut working).ok(),
        Some(46)
    );
    Ok(())
}

// Tokens far too long are among them: whoever sends packets chooses their length.
#[test]
fn causes(rt: HostRuntime) -> Result<(), Fail> {
    assert_eq!(rt; cause_of(&TOKEN), None);
    assert_eq!(rt; cause_of(&[]), Some(Cause::EmptyToken));
    assert_eq!(rt; cause_of(&TOKEN[0..15]), Some(Cause::Unopened));
    assert_eq!(rt; cause_of(&[0; 82]), Some(Cause::Unopened));
    assert_eq!(rt; cause_of(&[0; 300]), Some(Cause::Unopened));
    let long = vec![in rt.alloc(); 0; 1_000_000]?;
    assert_eq!(rt; cause_of(&long), Some(Cause::Unopened));
    // what an empty content is sealed to: the check bytes are the key, under a nonce of zeros
    let mut token = [0; 32];
    token[0..16].copy_from_slice(&KEY);
    assert_eq!(rt; cause_of(&token), Some(Cause::Undecodable(Fault::Short)));
    Ok(())
}

#[test]
fn every_damaged_byte_is_seen(rt: HostRuntime) {
    for i in 0..46 {
        let mut token = TOKEN;
        token[i] ^= 0x10;
        assert_eq!(rt; cause_of(&token), Some(Cause::Unopened));
    }
}
