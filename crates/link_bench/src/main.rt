#![tactic(auto)]

mod periods;
mod show;

use answers::Refusal;
use anyhow::anyhow;
use hex_text::Hex;
use periods::run_log;
use sealing::{
    BenchScheme, MAX_TOKEN_LEN, Nonce, SealingScheme, WORKING_LEN, decode_token, encode_token,
};
use show::Said;
use std::alloc::Global;
use wire::{ConnectionId, IpAddr, SocketAddr, TokenPayload};

// The damaged byte of each token.
const DAMAGED: usize = 3;

// Opens and decodes a token, and prints what it says, or the cause why it says nothing.
fn read<S: SealingScheme>(rt: &impl Print, scheme: &S, token: &[u8]) -> anyhow::Result<()> {
    let mut working = [0; WORKING_LEN];
    match decode_token(scheme, token, &mut working) {
        Ok(token) => println!(rt; "says {} under low half {}", Said(token.payload), token.low)?,
        Err(cause) => println!(rt; "unvalidated {}", cause.number())?,
    }
    Ok(())
}

fn refused(refusal: Refusal) -> anyhow::Error {
    anyhow!("refused {}", refusal.number())
}

// Writes a token and reads it back, first as it is and then with one byte damaged.
fn there_and_back<S: SealingScheme>(
    rt: &impl Print,
    scheme: &S,
    payload: &TokenPayload,
    nonce: Nonce,
) -> anyhow::Result<()> {
    let mut working = [0; WORKING_LEN];
    let mut token = [0; MAX_TOKEN_LEN];
    let len = payload.encode(&mut working).map_err(refused)?;
    println!(rt; "content {}", Hex(&working[0..len]))?;
    let len = encode_token(scheme, payload, nonce, &mut token, &mut working).map_err(|back| refused(
        back.refusal,
    ))?;
    println!(rt; "token {} of {len} bytes", Hex(&token[0..len]))?;
    read(rt, scheme, &token[0..len])?;
    token[DAMAGED] ^= 1;
    println!(rt; "with byte {DAMAGED} damaged:")?;
    read(rt, scheme, &token[0..len])
}

fn run_tokens(rt: &impl Print) -> anyhow::Result<()> {
    let scheme = BenchScheme::new(*b"a key of the lab");
    let cab = IpAddr::V4([192, 0, 2, 7]);
    let validation = TokenPayload::Validation {
        ip: cab,
        issued: 1000,
    };
    there_and_back(rt, &scheme, &validation, Nonce::new(7, 9))?;
    let id = ConnectionId::new(&[0xaa, 0xbb]).map_err(refused)?;
    let retry = TokenPayload::Retry {
        address: SocketAddr {
            ip: cab,
            port: 4433,
        },
        orig_dst_cid: id,
        issued: 1,
    };
    there_and_back(rt, &scheme, &retry, Nonce::new(8, 9))?;
    let id = ConnectionId::new(b"twenty bytes of name").map_err(refused)?;
    let address = SocketAddr {
        ip: IpAddr::V6(*b"\x20\x01\x0d\xb8\0\0\0\0\0\0\0\0\0\0\0\x07"),
        port: 4433,
    };
    let longest = TokenPayload::Retry {
        address,
        orig_dst_cid: id,
        issued: 1000,
    };
    there_and_back(rt, &scheme, &longest, Nonce::new(9, 9))?;
    Ok(())
}

fn run(rt: &impl Print, heap: Global) -> anyhow::Result<()> {
    run_tokens(rt)?;
    run_log(rt, heap)
}

fn main(rt: HostRuntime) -> anyhow::Result<()> {
    run(&rt, rt.alloc())
}
