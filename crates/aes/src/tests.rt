// The examples A.3 and C.3 of FIPS 197.
use crate::Aes256;
use crate::keys::expand;
use std::array;

const KEY_A3: [u8; 32] = [
    0x60, 0x3d, 0xeb, 0x10, 0x15, 0xca, 0x71, 0xbe, 0x2b, 0x73, 0xae, 0xf0, 0x85, 0x7d, 0x77, 0x81,
    0x1f, 0x35, 0x2c, 0x07, 0x3b, 0x61, 0x08, 0xd7, 0x2d, 0x98, 0x10, 0xa3, 0x09, 0x14, 0xdf, 0xf4,
];

#[test]
fn expands_the_key_of_a3(rt: HostRuntime) {
    let words = expand(&KEY_A3);
    assert_eq!(rt; words[8], 0x9ba35411);
    assert_eq!(rt; words[12], 0xa8b09c1a);
    assert_eq!(rt; words[59], 0x706c631e);
}

#[test]
fn enciphers_the_block_of_c3(rt: HostRuntime) {
    let key = array::from_fn(|i| i as u8);
    let block = array::from_fn(|i| 0x11 * i as u8);
    let cipher = Aes256::new(&key).encrypt_block(block);
    assert_eq!(rt;
        u128::from_be_bytes(cipher),
        0x8ea2b7ca516745bfeafc49904b496089
    );
}
