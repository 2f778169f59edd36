use crate::MAX_CID_LEN;
use std::marker::Model;

// An IP: its octets, the first one first.
#[derive(Clone, Copy, PartialEq, Eq, Debug)]
pub enum IpAddr {
    V4([u8; 4]),
    V6([u8; 16]),
}

// An IP and a port, and nothing else: no flow label, no scope.
#[derive(Clone, Copy, Debug, PartialEq, Eq)]
pub struct SocketAddr {
    pub ip: IpAddr,
    pub port: u16,
}

// A connection id of at most 20 bytes; the rest of the array is zero. A buffer with a length beside, as it is copied
// and takes no heap.
#[derive(Clone, Copy, PartialEq, Eq)]
pub struct ConnectionId {
    pub(crate) len: u8,
    pub(crate) bytes: [u8; MAX_CID_LEN],
}

// In clauses a connection id is its bytes.
impl Model for ConnectionId {
    ghost use Rattle.std.specs.Prelude.{ℕ, List, take};

    ghost Value = { List ℕ };

    ghost view = { λ id. take id.len id.bytes };

    ghost use Rattle.wire.specs.Ids.{Laid, laid_out, laid_out_again};

    ghost invariant = { Laid };

    ghost inverse = { laid_out };

    ghost inverse_ok = { laid_out_again };
}

// What a token says; an issue time is in whole seconds since 1970.
#[derive(Debug, Clone, Copy, PartialEq, Eq)]
pub enum TokenPayload {
    // sent in a Retry packet
    Retry {
        address: SocketAddr,
        orig_dst_cid: ConnectionId,
        issued: u32,
    },
    // sent in a NEW_TOKEN frame; the port is likely to change between sessions
    Validation {
        ip: IpAddr,
        issued: u32,
    },
}
