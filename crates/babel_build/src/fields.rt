//! The fields of TLVs, as they are written (RFC 8966, sections 4.1 and 4.6).

ghost use Rattle.std.specs.Prelude.{◌≡◌, ◌≤◌, take, length};
ghost use Rattle.babel_value.specs.Addresses.{width_of};
ghost use Rattle.babel_message.specs.Layout.{ipv6_len};
ghost use Rattle.babel_packet.specs.Prefixes.{octets_of as octets_taken};
ghost use Rattle.babel_packet.specs.Payloads.{two, octets, is_link_local as is_in_link_local, encoding, encoded, prefix_encoding as family_encoding};

use babel_message::layout::addresses::{IPV6_LEN, LINK_LOCAL_LEN};
use babel_message::{AE_IPV4, AE_IPV6, AE_LINK_LOCAL};
use babel_value::{Addr, Prefix};
use byteorder::{BigEndian, ByteOrder};

/// The first octets of link-local addresses, fe80::/64.
const LINK_LOCAL: [u8; LINK_LOCAL_LEN] = [0xfe, 0x80, 0, 0, 0, 0, 0, 0];

/// The two octets of a number.
#[inline]
pub(crate) fn octets_of(number: u16) -> [u8; 2]
    ensures { result ≡ two number }
{
    let mut octets = [0; 2];
    BigEndian::write_u16(&mut octets, number);
    octets
}

/// The encoding of an address, and its octets in that encoding (RFC 8966, section 4.1.4).
#[inline]
pub(crate) fn encoded(addr: &Addr) -> (u8, &[u8])
    ensures encoding { result.0 ≡ encoding addr.now }
    ensures octets { result.1.now ≡ encoded addr.now }
    ensures short { length result.1.now ≤ ipv6_len }
{
    match addr {
        Addr::V4(octets) => (AE_IPV4, octets),
        Addr::V6(octets) if is_link_local(octets) => (AE_LINK_LOCAL, &octets[LINK_LOCAL_LEN..]),
        Addr::V6(octets) => (AE_IPV6, octets),
    }
}

/// Whether the address is within fe80::/64.
#[inline]
fn is_link_local(octets: &[u8; IPV6_LEN]) -> bool
    ensures { result ≡ is_in_link_local octets.now }
{
    octets[..LINK_LOCAL_LEN] == LINK_LOCAL[..]
}

/// The encoding of a prefix (RFC 8966, section 4.1.5).
#[inline]
pub(crate) fn prefix_encoding(prefix: &Prefix) -> u8
    ensures { result ≡ family_encoding prefix.now.addr }
{
    match prefix.addr() {
        Addr::V4(_) => AE_IPV4,
        Addr::V6(_) => AE_IPV6,
    }
}

/// The octets of an address that a prefix of this length reaches into (RFC 8966, section 4.1.5).
#[inline]
pub(crate) fn reached(addr: &Addr, bits: u8) -> &[u8]
    requires { bits ≤ width_of addr.now }
    ensures octets { result.now ≡ take (octets_taken bits) (octets addr.now) }
    ensures short { length result.now ≤ ipv6_len }
{
    let taken = (bits as usize + 7) / 8;
    match addr {
        Addr::V4(octets) => &octets[..taken],
        Addr::V6(octets) => &octets[..taken],
    }
}
