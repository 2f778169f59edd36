// What no clause says: that a text longer than any token's is shown, and that texts are read where there is memory.
use super::*;
use std::test::Fail;

#[test]
fn a_hundred_bytes_are_shown(rt: HostRuntime) -> Result<(), Fail> {
    let shown = format!(in rt.alloc(); "{}", Hex(&[0xc0; 100]))?;
    assert_eq!(rt; shown.len(), 200);
    assert_eq!(rt; &shown.as_bytes()[196..], &b"c0c0"[..]);
    let shown = format!(in rt.alloc(); "{:+08.1}", Hex(&[0xc0, 0x0d]))?;
    assert_eq!(rt; shown.as_str(), "c00d");
    Ok(())
}

#[test]
fn texts_are_read(rt: HostRuntime) -> Result<(), Fail> {
    assert!(rt; read_hex(rt.alloc(), b"c00d")?.is_some());
    assert!(rt; read_hex(rt.alloc(), b"c0d")?.is_none());
    assert!(rt; read_hex(rt.alloc(), b"c00x")?.is_none());
    assert!(rt; read_hex(rt.alloc(), b"C00D")?.is_none());
    Ok(())
}
