ghost use Rattle.std.specs.Prelude.{◌≡◌, ◌≤◌, length, IfOk};
ghost use Rattle.std.specs.Int.Digits.{number_from_digits};
ghost use Rattle.wire.specs.Fields.{octets as octets_of};
ghost use Rattle.wire.specs.Content.{decode_ip, decode_port, decode_addr, decode_id, decode_time, decode_retry, decode_validation, decode_content, ended as ended_at};

use crate::types::{ConnectionId, IpAddr, SocketAddr, TokenPayload};
use crate::{IPV4, IPV6, MAX_CID_LEN, RETRY, VALIDATION};
use answers::Fault;

// The first `N` bytes.
fn octets<const N: usize>(bytes: &[u8]) -> Result<[u8; N], Fault>
    ensures { result ≡ octets_of N bytes.now }
{
    bytes.first_chunk::<N>().copied().ok_or(Fault::Short)
}

// The number that eight bytes write, the highest first.
fn be_u64(octets: [u8; 8]) -> u64
    ensures { result ≡ number_from_digits 256 octets }
{
    u64::from_be_bytes(octets)
}

// Each reader answers the field at the front and the number of bytes it took, and says that there were as many: what
// follows the field is cut by that number.
fn decode_ip(bytes: &[u8]) -> Result<(IpAddr, usize), Fault>
    ensures value { result ≡ decode_ip bytes.now }
    ensures taken { IfOk result (λ p. p.1 ≤ length bytes.now) }
{
    let (kind, rest) = bytes.split_first().ok_or(Fault::Short)?;
    match *kind {
        IPV4 => Ok((IpAddr::V4(octets(rest)?), 5)),
        IPV6 => Ok((IpAddr::V6(octets(rest)?), 17)),
        kind => Err(Fault::IpKind(kind)),
    }
}

fn decode_port(bytes: &[u8]) -> Result<(u16, usize), Fault>
    ensures value { result ≡ decode_port bytes.now }
    ensures taken { IfOk result (λ p. p.1 ≤ length bytes.now) }
{
    Ok((u16::from_be_bytes(octets(bytes)?), 2))
}

fn decode_addr(bytes: &[u8]) -> Result<(SocketAddr, usize), Fault>
    ensures value { result ≡ decode_addr bytes.now }
    ensures taken { IfOk result (λ p. p.1 ≤ length bytes.now) }
{
    let (ip, ip_len) = decode_ip(bytes)?;
    let (port, port_len) = decode_port(&bytes[ip_len..])?;
    Ok((SocketAddr { ip, port }, ip_len + port_len))
}

fn decode_unix_secs(bytes: &[u8]) -> Result<(u32, usize), Fault>
    ensures value { result ≡ decode_time bytes.now }
    ensures taken { IfOk result (λ p. p.1 ≤ length bytes.now) }
{
    let seconds = u32::try_from(be_u64(octets(bytes)?)).map_err(|_| Fault::LateIssue)?;
    Ok((seconds, 8))
}

impl ConnectionId {
    pub(crate) fn decode_long(bytes: &[u8]) -> Result<(ConnectionId, usize), Fault>
        ensures value { result ≡ decode_id bytes.now }
        ensures taken { IfOk result (λ p. p.1 ≤ length bytes.now) }
    {
        let (first, rest) = bytes.split_first().ok_or(Fault::Short)?;
        let len = *first as usize;
        if len > MAX_CID_LEN {
            return Err(Fault::LongConnectionId(*first));
        }
        if rest.len() < len {
            return Err(Fault::Short);
        }
        Ok((ConnectionId::copied(&rest[0..len]), 1 + len))
    }
}

// The fields took all the bytes.
fn ended(bytes: &[u8], taken: usize) -> Result<(), Fault>
    ensures { result ≡ ended_at bytes.now (tt, taken) }
{
    if bytes.len() != taken {
        return Err(Fault::ExtraBytes);
    }
    Ok(())
}

// The fields of a retry token, and nothing behind them.
fn decode_retry(bytes: &[u8]) -> Result<TokenPayload, Fault>
    ensures { result ≡ decode_retry bytes.now }
{
    let (address, address_len) = decode_addr(bytes)?;
    let rest = &bytes[address_len..];
    let (orig_dst_cid, id_len) = ConnectionId::decode_long(rest)?;
    let (issued, time_len) = decode_unix_secs(&rest[id_len..])?;
    ended(rest, id_len + time_len)?;
    Ok(TokenPayload::Retry {
        address,
        orig_dst_cid,
        issued,
    })
}

// The fields of a validation token, and nothing behind them.
fn decode_validation(bytes: &[u8]) -> Result<TokenPayload, Fault>
    ensures { result ≡ decode_validation bytes.now }
{
    let (ip, ip_len) = decode_ip(bytes)?;
    let (issued, time_len) = decode_unix_secs(&bytes[ip_len..])?;
    ended(bytes, ip_len + time_len)?;
    Ok(TokenPayload::Validation { ip, issued })
}

impl TokenPayload {
    // What the bytes of a content say.
    pub fn decode(bytes: &[u8]) -> Result<TokenPayload, Fault>
        ensures { result ≡ decode_content bytes.now }
    {
        let (kind, fields) = bytes.split_first().ok_or(Fault::Short)?;
        match *kind {
            RETRY => decode_retry(fields),
            VALIDATION => decode_validation(fields),
            kind => Err(Fault::TokenType(kind)),
        }
    }
}
