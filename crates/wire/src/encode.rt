ghost use Rattle.std.specs.Prelude.{◌≡◌, ◌+◌, ◌≤◌, length};
ghost use Rattle.answers.specs.Buffers.{Put, Written};
ghost use Rattle.wire.specs.declared.types.TokenPayload.TheVariants.{Retry, Validation};
ghost use Rattle.wire.specs.Content.{encode_ip, encode_addr, encode_id, encode_time, encode_content};

use crate::types::{ConnectionId, IpAddr, SocketAddr, TokenPayload};
use crate::{IPV4, IPV6, RETRY, VALIDATION};
use answers::Refusal;

// Each writer puts its bytes into the buffer from a place on, and answers where they end. The two stay apart: a struct
// that held the buffer would need a clause more in each contract, that it holds the same buffer still.
fn put(bytes: &[u8], at: usize, out: &mut [u8]) -> usize
    requires { at + length bytes.now ≤ length out.old }
    ensures { Put bytes.now at out.old out.new result }
{
    let end = at + bytes.len();
    out[at..end].copy_from_slice(bytes);
    end
}

fn encode_ip(ip: IpAddr, at: usize, out: &mut [u8]) -> usize
    requires { at + length (encode_ip ip) ≤ length out.old }
    ensures { Put (encode_ip ip) at out.old out.new result }
{
    match ip {
        IpAddr::V4(octets) => {
            let at = put(&[IPV4], at, out);
            put(&octets, at, out)
        }
        IpAddr::V6(octets) => {
            let at = put(&[IPV6], at, out);
            put(&octets, at, out)
        }
    }
}

fn encode_addr(address: SocketAddr, at: usize, out: &mut [u8]) -> usize
    requires { at + length (encode_addr address) ≤ length out.old }
    ensures { Put (encode_addr address) at out.old out.new result }
{
    let at = encode_ip(address.ip, at, out);
    put(&address.port.to_be_bytes(), at, out)
}

fn encode_unix_secs(seconds: u32, at: usize, out: &mut [u8]) -> usize
    requires { at + length (encode_time seconds) ≤ length out.old }
    ensures { Put (encode_time seconds) at out.old out.new result }
{
    put(&u64::from(seconds).to_be_bytes(), at, out)
}

impl ConnectionId {
    fn encode_long(&self, at: usize, out: &mut [u8]) -> usize
        requires { at + length (encode_id self.now) ≤ length out.old }
        ensures { Put (encode_id self.now) at out.old out.new result }
    {
        let id = self.as_slice();
        let at = put(&[id.len() as u8], at, out);
        put(id, at, out)
    }
}

fn encode_retry(
    address: SocketAddr,
    orig_dst_cid: ConnectionId,
    issued: u32,
    out: &mut [u8],
) -> usize
    requires { length (encode_content (Retry address orig_dst_cid issued)) ≤ length out.old }
    ensures { Put (encode_content (Retry address orig_dst_cid issued)) 0 out.old out.new result }
{
    let fields = put(&[RETRY], 0, out);
    let id = encode_addr(address, fields, out);
    let time = orig_dst_cid.encode_long(id, out);
    encode_unix_secs(issued, time, out)
}

fn encode_validation(ip: IpAddr, issued: u32, out: &mut [u8]) -> usize
    requires { length (encode_content (Validation ip issued)) ≤ length out.old }
    ensures { Put (encode_content (Validation ip issued)) 0 out.old out.new result }
{
    let fields = put(&[VALIDATION], 0, out);
    let time = encode_ip(ip, fields, out);
    encode_unix_secs(issued, time, out)
}

impl IpAddr {
    fn encoded_len(self) -> usize
        ensures value { result ≡ length (encode_ip self) }
        ensures bound { result ≤ 17 }
    {
        match self {
            IpAddr::V4(_) => 5,
            IpAddr::V6(_) => 17,
        }
    }
}

impl TokenPayload {
    fn encoded_len(&self) -> usize
        ensures { result ≡ length (encode_content self.now) }
    {
        match self {
            TokenPayload::Retry {
                address,
                orig_dst_cid,
                issued: _,
            } => { 1 + address.ip.encoded_len() + 2 + 1 + orig_dst_cid.as_slice().len() + 8 }
            TokenPayload::Validation { ip, issued: _ } => 1 + ip.encoded_len() + 8,
        }
    }

    // Writes the content from the front of `out` and answers its length; a shorter buffer is refused.
    pub fn encode(&self, out: &mut [u8]) -> Result<usize, Refusal>
        ensures { Written (encode_content self.now) out.old out.new result }
    {
        if out.len() < self.encoded_len() {
            return Err(Refusal::SmallBuffer);
        }
        match self {
            TokenPayload::Retry {
                address,
                orig_dst_cid,
                issued,
            } => { Ok(encode_retry(*address, *orig_dst_cid, *issued, out)) }
            TokenPayload::Validation { ip, issued } => Ok(encode_validation(*ip, *issued, out)),
        }
    }
}
