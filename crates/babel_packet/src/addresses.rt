//! Addresses by their encoding (RFC 8966, section 4.1.4).

ghost use Rattle.std.specs.Prelude.{◌≡◌, ◌≤◌, ◌+◌, length};
ghost use Rattle.babel_message.specs.Layout as layout;
ghost use Rattle.babel_packet.specs.Addresses as addresses;

use babel_message::layout::addresses::{IPV4_LEN, IPV6_LEN, LINK_LOCAL_LEN};

/// The IPv4 address at this offset.
#[inline]
pub(crate) fn ipv4_at(payload: &[u8], at: usize) -> [u8; IPV4_LEN]
    requires { at + layout.ipv4_len ≤ length payload.now }
    ensures { result ≡ addresses.ipv4_at payload.now at }
{
    let mut octets = [0; IPV4_LEN];
    octets.copy_from_slice(&payload[at..at + IPV4_LEN]);
    octets
}

/// The IPv6 address at this offset.
#[inline]
pub(crate) fn ipv6_at(payload: &[u8], at: usize) -> [u8; IPV6_LEN]
    requires { at + layout.ipv6_len ≤ length payload.now }
    ensures { result ≡ addresses.ipv6_at payload.now at }
{
    let mut octets = [0; IPV6_LEN];
    octets.copy_from_slice(&payload[at..at + IPV6_LEN]);
    octets
}

/// The link-local address whose octets after fe80::/64 are at this offset.
#[inline]
pub(crate) fn link_local_at(payload: &[u8], at: usize) -> [u8; IPV6_LEN]
    requires { at + layout.link_local_len ≤ length payload.now }
    ensures { result ≡ addresses.link_local_at payload.now at }
{
    let mut octets = [0xfe, 0x80, 0, 0, 0, 0, 0, 0, 0, 0, 0, 0, 0, 0, 0, 0];
    octets[LINK_LOCAL_LEN..].copy_from_slice(&payload[at..at + LINK_LOCAL_LEN]);
    octets
}
