//! Numbers and flags in octets (RFC 8966, section 4.1.1).

ghost use Rattle.std.specs.Prelude.{◌≡◌, ◌≤◌, ◌+◌, length};
ghost use Rattle.babel_packet.specs.Numbers as numbers;

use byteorder::{BigEndian, ByteOrder};

/// The number in the two octets at this offset.
#[inline]
#[tactic(auto, unfolding(crate::specs::Numbers::word))]
pub(crate) fn word(octets: &[u8], at: usize) -> u16
    requires { at + 2 ≤ length octets.now }
    ensures { result ≡ numbers.word octets.now at }
{
    BigEndian::read_u16(&octets[at..])
}

/// Whether the flag is set among the flags.
#[inline]
#[tactic(auto, unfolding(crate::specs::Numbers::has_flag))]
pub(crate) fn has_flag(flags: u16, flag: u16) -> bool
    ensures { result ≡ numbers.has_flag flags flag }
{
    flags & flag != 0
}
