#![tactic(auto)]

ghost use Rattle.std.specs.Prelude.{◌≡◌, ◌<◌, ◌≤◌, length};
ghost use Rattle.answers.specs.Sameness.{TellsSameness, ClonesAreTheSame, ClonesNeverFail};
ghost use Rattle.wire.specs.Content.{id_from, same_ip, same_addr};
ghost use Rattle.wire.specs.Numbers.{Bytes};
ghost use Rattle.wire.specs.Laws.{SoundIp, Sound, DecodingUndoesEncoding, EachContentHasOneEncoding, ContentsAreShort, ContentsAreBytes};

mod decode;
mod encode;
#[cfg(test)]
mod tests;
mod text;
mod types;

use answers::Refusal;
pub use types::{ConnectionId, IpAddr, SocketAddr, TokenPayload};

// The first byte of a content. A number, not an enum: its kinds are those of `TokenPayload`, and it stands only where a
// content is read or written.
pub(crate) const RETRY: u8 = 0;

pub(crate) const VALIDATION: u8 = 1;

// The first byte of an IP, whose kinds are those of `IpAddr`.
pub(crate) const IPV4: u8 = 0;

pub(crate) const IPV6: u8 = 1;

/// How many bytes the longest connection id of QUIC version 1 has.
pub const MAX_CID_LEN: usize = 20;

/// How many bytes the longest content has: a retry token's over IPv6, with an id of 20 bytes.
pub const MAX_PAYLOAD_LEN: usize = 49;

impl ConnectionId {
    // The id of these bytes, at most 20.
    pub fn new(id: &[u8]) -> Result<ConnectionId, Refusal>
        ensures { result ≡ id_from id.now }
    {
        if id.len() > MAX_CID_LEN {
            return Err(Refusal::LongConnectionId);
        }
        Ok(ConnectionId::copied(id))
    }

    // The id of these bytes, which a caller knows to be at most 20.
    pub(crate) fn copied(id: &[u8]) -> ConnectionId
        requires { length id.now ≤ MAX_CID_LEN }
        ensures { result ≡ id.now }
    {
        let mut bytes = [0; MAX_CID_LEN];
        bytes[0..id.len()].copy_from_slice(id);
        ConnectionId {
            len: id.len() as u8,
            bytes,
        }
    }

    pub fn as_slice(&self) -> &[u8]
        ensures value { result.now ≡ self.now }
        ensures bound { length result.now ≤ MAX_CID_LEN }
    {
        &self.bytes[0..self.len as usize]
    }
}

// Every value of the type is a content that can be encoded.
pub fn payloads_are_sound(payload: &TokenPayload)
    ensures { Sound payload.now }
{
    match payload {
        TokenPayload::Retry {
            address,
            orig_dst_cid,
            issued,
        } => {
            ips_are_sound(address.ip);
            numbers_fit(address.port, *issued);
            slices_are_bytes(orig_dst_cid.as_slice());
        }
        TokenPayload::Validation { ip, issued } => {
            ips_are_sound(*ip);
            numbers_fit(0, *issued);
        }
    }
}

fn numbers_fit(port: u16, seconds: u32)
    ensures port { port < 65536 }
    ensures seconds { seconds < 4294967296 }
{}

// What stands in a slice of bytes is below 256.
pub fn slices_are_bytes(bytes: &[u8])
    ensures { Bytes bytes.now }
{}

// Every value of the type has as many octets as its kind, and each is a byte.
pub fn ips_are_sound(ip: IpAddr)
    ensures { SoundIp ip }
{
    match ip {
        IpAddr::V4(octets) => slices_are_bytes(&octets),
        IpAddr::V6(octets) => slices_are_bytes(&octets),
    }
}

// Two IPs, addresses or connection ids are equal just if they are the same; and so the definitions' `same_ip` and `same_addr`
// tell what `==` does.
#[tactic(auto, using(crate::proofs::Ids::ids_tell))]
pub fn equal_values_are_the_same()
    ensures ips { TellsSameness (⟦<IpAddr as PartialEq>⟧.eq) }
    ensures addresses { TellsSameness (⟦<SocketAddr as PartialEq>⟧.eq) }
    ensures ids { TellsSameness (⟦<ConnectionId as PartialEq>⟧.eq) }
    ensures same_ips { TellsSameness same_ip }
    ensures same_addresses { TellsSameness same_addr }
{}

// Two contents are equal just if they are the same.
pub fn equal_contents_are_the_same()
    ensures { TellsSameness (⟦<TokenPayload as PartialEq>⟧.eq) }
{
    equal_values_are_the_same();
}

// A clone of an IP, an address, a connection id or a content is what it was made of, and never fails.
pub fn cloned_values_are_the_same()
    ensures ips { ClonesAreTheSame (⟦<IpAddr as Clone>⟧.is_clone) }
    ensures addresses { ClonesAreTheSame (⟦<SocketAddr as Clone>⟧.is_clone) }
    ensures ids { ClonesAreTheSame (⟦<ConnectionId as Clone>⟧.is_clone) }
    ensures contents { ClonesAreTheSame (⟦<TokenPayload as Clone>⟧.is_clone) }
    ensures ips_come { ClonesNeverFail (⟦<IpAddr as Clone>⟧.is_infallible) }
    ensures addresses_come { ClonesNeverFail (⟦<SocketAddr as Clone>⟧.is_infallible) }
    ensures ids_come { ClonesNeverFail (⟦<ConnectionId as Clone>⟧.is_infallible) }
    ensures contents_come { ClonesNeverFail (⟦<TokenPayload as Clone>⟧.is_infallible) }
{}

// Decoding gives back every encoded content.
pub fn decoding_undoes_encoding()
    ensures { DecodingUndoesEncoding }
{}

// Bytes that decode are the encoding of what they decode to.
pub fn each_content_has_one_encoding()
    ensures { EachContentHasOneEncoding }
{}

// A content has 14 to 49 bytes.
pub fn contents_are_short()
    ensures { ContentsAreShort }
{}

// What a content is encoded to is bytes.
pub fn contents_are_bytes()
    ensures { ContentsAreBytes }
{}

// The public constants are the numbers of the rules.
pub fn the_limits_are_those_of_the_rules()
    ensures id { MAX_CID_LEN ≡ 20 }
    ensures content { MAX_PAYLOAD_LEN ≡ 49 }
{}
