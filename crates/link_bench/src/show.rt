use hex_text::Hex;
use std::fmt;
use wire::{IpAddr, TokenPayload};

// An IP: a dotted quad, or 32 hex digits.
#[derive(Drop)]
pub struct Ip(pub IpAddr);

impl fmt::Display for Ip {
    fn fmt<W: fmt::Write>(&self, f: &mut fmt::Formatter<W>) -> fmt::Result {
        match &self.0 {
            IpAddr::V4(o) => write!(f, "{}.{}.{}.{}", o[0], o[1], o[2], o[3]),
            IpAddr::V6(o) => write!(f, "{}", Hex(o)),
        }
    }
}

// What a token says.
#[derive(Drop)]
pub struct Said(pub TokenPayload);

impl fmt::Display for Said {
    fn fmt<W: fmt::Write>(&self, f: &mut fmt::Formatter<W>) -> fmt::Result {
        match self.0 {
            TokenPayload::Retry {
                address,
                orig_dst_cid,
                issued,
            } => {
                write!(
                    f,
                    "retry {} port {} id {} issued {issued}",
                    Ip(address.ip),
                    address.port,
                    Hex(orig_dst_cid.as_slice())
                )
            }
            TokenPayload::Validation { ip, issued } => write!(
                f,
                "validation {} issued {issued}",
                Ip(ip)
            ),
        }
    }
}
