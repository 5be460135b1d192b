//! Whether octets are the same. They are compared as numbers, which takes one step in place of
//! eight.

ghost use Rattle.std.specs.Prelude.{◌≡◌, ◌+◌, ◌≤◌, ◌&&◌, slice_range};
ghost use Rattle.std.specs.Str.{bytes_eq};
ghost use Rattle.std.specs.Int.{from_be_bytes};

use babel_message::layout::addresses::IPV6_LEN;

/// The octets of half an IPv6 address.
const HALF: usize = IPV6_LEN / 2;

/// Whether 4 octets are the same.
#[inline]
#[tactic(auto, using(crate::proofs::Numbers::equal_numbers4))]
pub(crate) fn are_equal4(one: &[u8; 4], other: &[u8; 4]) -> bool
    ensures { result ≡ bytes_eq one.now other.now }
{
    u32::from_be_bytes(*one) == u32::from_be_bytes(*other)
}

/// Whether 8 octets are the same.
#[inline]
#[tactic(auto, using(babel_value::proofs::Numbers::equal_numbers8))]
pub(crate) fn are_equal8(one: &[u8; 8], other: &[u8; 8]) -> bool
    ensures { result ≡ bytes_eq one.now other.now }
{
    u64::from_be_bytes(*one) == u64::from_be_bytes(*other)
}

/// Whether 16 octets are the same.
#[inline]
pub(crate) fn are_equal16(one: &[u8; 16], other: &[u8; 16]) -> bool
    ensures { result ≡ bytes_eq one.now other.now }
{
    let (first, last) = (half(one, 0), half(one, HALF));
    let (other_first, other_last) = (half(other, 0), half(other, HALF));
    are_equal8(&first, &other_first) && are_equal8(&last, &other_last)
}

/// As many octets as half an address has, from this index on.
#[inline]
fn half(octets: &[u8; IPV6_LEN], from: usize) -> [u8; HALF]
    requires { from ≤ HALF }
    ensures { result ≡ slice_range octets.now from (from + HALF) }
{
    let mut half = [0; HALF];
    half.copy_from_slice(&octets[from..from + HALF]);
    half
}
