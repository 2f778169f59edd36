#![tactic(auto)]
// Times the cipher, the hash and the scheme. Each figure is the least of some rounds.
ghost use Rattle.std.specs.Prelude.{◌≤◌};

use aes::Aes256;
use anyhow::Context;
use ccm::CcmScheme;
use sealing::{SealingScheme, WORKING_LEN};
use sha256::HmacKey;
use std::env;
use std::time::Instant;

const ROUNDS: u32 = 20;

// Calls in a round; each takes what the one before gave.
const CALLS: u32 = 20_000;

const BLOCKS: usize = 16_384;

// The least time of some rounds, in hundredths of a nanosecond for each of so many calls.
fn least_of<F: FnMut() -> anyhow::Result<()>>(
    rt: &HostRuntime,
    calls: u32,
    mut round: F,
) -> anyhow::Result<u128>
    requires { F.IsAlwaysCallable round }
{
    let mut least = u128::MAX;
    for _ in 0..ROUNDS {
        let start = Instant::now(rt)?;
        round()?;
        least = least.min(start.elapsed(rt)?.as_nanos());
    }
    Ok(least.saturating_mul(100) / calls.max(1) as u128)
}

// One block after the other.
fn cipher(aes: &Aes256, start: [u8; 16]) -> [u8; 16] {
    (0..CALLS).fold(start, |block, _| aes.encrypt_block(block))
}

// The first sixteen bytes, if there are so many.
fn front(bytes: &[u8]) -> [u8; 16] {
    bytes.first_chunk().copied().unwrap_or([0; 16])
}

// The key of a nonce, which is the front of the next nonce.
fn derive(secret: &HmacKey, start: [u8; 16]) -> [u8; 16] {
    (0..CALLS).fold(start, |nonce, _| front(&secret.expand(&nonce)))
}

// Seals the working bytes' front; the front of what is sealed is the next nonce. Refused only for lengths.
fn seal(scheme: &CcmScheme, len: usize, working: &mut [u8], out: &mut [u8]) -> anyhow::Result<()> {
    let mut nonce = [7; 16];
    for _ in 0..CALLS {
        scheme
            .seal(&nonce, len, out, working)
            .ok()
            .context("a content was not sealed")?;
        nonce = front(out);
    }
    Ok(())
}

// Opens the same bytes again and again.
fn open(scheme: &CcmScheme, sealed: &[u8], working: &mut [u8]) -> anyhow::Result<()> {
    for _ in 0..CALLS {
        scheme
            .open(&[7; 16], sealed, working)
            .ok()
            .flatten()
            .context("a content was not opened")?;
    }
    Ok(())
}

// The least time of each part, and what the chains came to. Nothing is printed before all three are measured.
fn measure_parts(rt: &HostRuntime) -> anyhow::Result<()> {
    let aes = Aes256::new(&[1; 32]);
    let secret = HmacKey::new(&[2; 32]);
    let message = vec![in rt.alloc(); 3u8; 64 * BLOCKS]?;
    let mut block = [0; 16];
    let enciphering = least_of(rt, CALLS, || {
        block = cipher(&aes, [4; 16]);
        Ok(())
    })?;
    let mut digest = [0; 32];
    let compressing = least_of(rt, BLOCKS as u32, || {
        digest = sha256::digest(&message);
        Ok(())
    })?;
    let mut nonce = [0; 16];
    let deriving = least_of(rt, CALLS, || {
        nonce = derive(&secret, [5; 16]);
        Ok(())
    })?;
    println!(rt; "block {enciphering} to {}", block[0])?;
    println!(rt; "compression {compressing} to {}", digest[0])?;
    println!(rt; "derivation {deriving} to {}", nonce[0])?;
    Ok(())
}

fn measure_scheme(rt: &HostRuntime, len: usize) -> anyhow::Result<()>
    requires { len ≤ 64 }
{
    let scheme = CcmScheme::new(&[6; 32]);
    let mut working = [8; WORKING_LEN];
    let mut out = [0; 80];
    let mut first = [0; 80];
    scheme
        .seal(&[7; 16], len, &mut first, &mut working)
        .ok()
        .context("a content was not sealed")?;
    let sealing = least_of(rt, CALLS, || seal(&scheme, len, &mut working, &mut out))?;
    let opening = least_of(rt, CALLS, || {
        open(&scheme, &first[..len + 16], &mut working)
    })?;
    println!(rt; "seal {len} {sealing} to {}", out[0])?;
    println!(rt; "open {len} {opening}")?;
    Ok(())
}

fn run(rt: &HostRuntime) -> anyhow::Result<()> {
    if env::args(rt)?.count() < 2 {
        println!(rt;
            "ccm_bench run: hundredths of a nanosecond for a block, a compression, a derived key, a seal and an open"
        )?;
        return Ok(());
    }
    measure_parts(rt)?;
    measure_scheme(rt, 14)?;
    measure_scheme(rt, 33)?;
    measure_scheme(rt, 49)
}

fn main(rt: HostRuntime) -> anyhow::Result<()> {
    run(&rt)
}
