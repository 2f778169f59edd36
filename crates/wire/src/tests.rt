use super::*;
use answers::Fault;
use std::test::Fail;

const CAB: IpAddr = IpAddr::V4([192, 0, 2, 7]);

const VALIDATION_AT_1000: [u8; 14] = [1, 0, 0xc0, 0, 2, 7, 0, 0, 0, 0, 0, 0, 0x03, 0xe8];

const RETRY_AT_1: [u8; 19] = [
    0, 0, 0xc0, 0, 2, 7, 0x11, 0x51, 2, 0xaa, 0xbb, 0, 0, 0, 0, 0, 0, 0, 1,
];

#[test]
fn validation_content(rt: HostRuntime) {
    let payload = TokenPayload::Validation {
        ip: CAB,
        issued: 1000,
    };
    let mut out = [9; 16];
    assert_eq!(rt; payload.encode(&mut out), Ok(14));
    assert_eq!(rt; &out[0..14], &VALIDATION_AT_1000[..]);
    assert_eq!(rt; &out[14..], &[9, 9][..]);
    assert_eq!(rt; payload.encode(&mut out[0..13]), Err(Refusal::SmallBuffer));
}

#[test]
fn retry_content(rt: HostRuntime) -> Result<(), Fail> {
    let orig_dst_cid = ConnectionId::new(&[0xaa, 0xbb])?;
    let payload = TokenPayload::Retry {
        address: SocketAddr {
            ip: CAB,
            port: 4433,
        },
        orig_dst_cid,
        issued: 1,
    };
    let mut out = [9; 20];
    assert_eq!(rt; payload.encode(&mut out), Ok(19));
    assert_eq!(rt; &out[0..19], &RETRY_AT_1[..]);
    assert_eq!(rt; out[19], 9);
    Ok(())
}

#[test]
fn what_retry_content_says(rt: HostRuntime) -> Result<(), Fail> {
    let TokenPayload::Retry {
        address,
        orig_dst_cid,
        issued,
    } = TokenPayload::decode(&RETRY_AT_1)?
    else {
        return Err(Fail::new("no retry token"));
    };
    assert!(rt;
        address
            == SocketAddr {
                ip: CAB,
                port: 4433,
            }
    );
    assert!(rt;
        address
            != SocketAddr {
                ip: CAB,
                port: 0x5111,
            }
    );
    assert!(rt; orig_dst_cid == ConnectionId::new(&[0xaa, 0xbb])?);
    assert_eq!(rt; issued, 1);
    Ok(())
}

fn fault_of(bytes: &[u8]) -> Option<Fault> {
    TokenPayload::decode(bytes).err()
}

#[test]
fn faults(rt: HostRuntime) {
    assert_eq!(rt; fault_of(&[]), Some(Fault::Short));
    assert_eq!(rt; fault_of(&[2]), Some(Fault::TokenType(2)));
    assert_eq!(rt; fault_of(&[1, 2]), Some(Fault::IpKind(2)));
    assert_eq!(rt; fault_of(&VALIDATION_AT_1000[0..13]), Some(Fault::Short));
    assert_eq!(rt;
        fault_of(b"\x01\0\0\0\0\0\0\0\0\x01\0\0\0\0"),
        Some(Fault::LateIssue)
    );
    assert_eq!(rt; fault_of(b"\x01\0\0\0\0\0\0\0\0\0\xff\xff\xff\xff"), None);
    assert_eq!(rt;
        fault_of(b"\x01\0\0\0\0\0\0\0\0\0\0\0\0\0\0"),
        Some(Fault::ExtraBytes)
    );
    assert_eq!(rt;
        fault_of(b"\0\0\0\0\0\0\0\0\x15"),
        Some(Fault::LongConnectionId(21))
    );
}

#[test]
fn connection_ids(rt: HostRuntime) -> Result<(), Fail> {
    assert_eq!(rt; ConnectionId::new(&[7; 20])?.as_slice().len(), 20);
    assert_eq!(rt;
        ConnectionId::new(&[7; 21]).err(),
        Some(Refusal::LongConnectionId)
    );
    Ok(())
}

// The texts are those of Python's ipaddress, but for the address that embeds an IPv4 one, which RFC 5952 has end so.
#[test]
fn printed_texts(rt: HostRuntime) -> Result<(), Fail> {
    let cab = SocketAddr {
        ip: CAB,
        port: 4433,
    };
    assert_eq!(rt; format!(in rt.alloc(); "{cab}")?.as_str(), "192.0.2.7:4433");
    let long = IpAddr::from([0x20, 1, 0x0d, 0xb8, 0, 0, 0, 0, 0, 1, 0, 0, 0, 0, 0, 1]);
    assert_eq!(rt;
        format!(in rt.alloc(); "{long}")?.as_str(),
        "2001:db8::1:0:0:1"
    );
    let last = IpAddr::from([0xfe, 0x80, 0, 0, 0, 1, 0, 0, 0, 0, 0, 0, 0, 0, 0xab, 0xcd]);
    let address = SocketAddr { ip: last, port: 1 };
    assert_eq!(rt;
        format!(in rt.alloc(); "{address}")?.as_str(),
        "[fe80:0:1::abcd]:1"
    );
    let mapped = IpAddr::from([0, 0, 0, 0, 0, 0, 0, 0, 0, 0, 0xff, 0xff, 192, 0, 2, 7]);
    assert_eq!(rt;
        format!(in rt.alloc(); "{mapped}")?.as_str(),
        "::ffff:192.0.2.7"
    );
    let id = ConnectionId::new(&[0xaa, 0x0b])?;
    assert_eq!(rt; format!(in rt.alloc(); "{id:?}")?.as_str(), "aa0b");
    Ok(())
}
