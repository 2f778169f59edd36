// IPs and addresses as text, in the words of the standard library, which writes IPv6 as RFC 5952 says.
ghost use Rattle.std.specs.Prelude.{◌≡◌, Some};
ghost use Rattle.wire.specs.declared.types.IpAddr.TheVariants.{V4, V6};
ghost use Rattle.wire.specs.Text.{ip_text, address_text};

use crate::types::{ConnectionId, IpAddr, SocketAddr};
use std::{fmt, net};

impl From<[u8; 4]> for IpAddr {
    ghost from_gives = { λ octets ip. ip ≡ V4 octets };

    fn from(octets: [u8; 4]) -> IpAddr {
        IpAddr::V4(octets)
    }
}

impl From<[u8; 16]> for IpAddr {
    ghost from_gives = { λ octets ip. ip ≡ V6 octets };

    fn from(octets: [u8; 16]) -> IpAddr {
        IpAddr::V6(octets)
    }
}

/// `192.0.2.7`, or `2001:db8::7`.
impl fmt::Display for IpAddr {
    ghost output = { λ a. Some (ip_text a) };

    fn fmt<W: fmt::Write>(&self, f: &mut fmt::Formatter<W>) -> fmt::Result {
        match self {
            IpAddr::V4(octets) => fmt::Display::fmt(&net::Ipv4Addr::from_octets(*octets), f),
            IpAddr::V6(octets) => fmt::Display::fmt(&net::Ipv6Addr::from_octets(*octets), f),
        }
    }
}

/// `192.0.2.7:4433`, or `[2001:db8::7]:4433`.
impl fmt::Display for SocketAddr {
    ghost output = { λ a. Some (address_text a) };

    fn fmt<W: fmt::Write>(&self, f: &mut fmt::Formatter<W>) -> fmt::Result {
        match self.ip {
            IpAddr::V4(octets) => {
                let ip = net::Ipv4Addr::from_octets(octets);
                fmt::Display::fmt(&net::SocketAddrV4::new(ip, self.port), f)
            }
            IpAddr::V6(octets) => {
                let ip = net::Ipv6Addr::from_octets(octets);
                fmt::Display::fmt(&net::SocketAddrV6::new(ip, self.port, 0, 0), f)
            }
        }
    }
}

/// The bytes of the id, as two hex digits each.
impl fmt::Debug for ConnectionId {
    fn fmt<W: fmt::Write>(&self, f: &mut fmt::Formatter<W>) -> fmt::Result {
        for byte in self.as_slice() {
            write!(f, "{byte:02x}")?;
        }
        Ok(())
    }
}
