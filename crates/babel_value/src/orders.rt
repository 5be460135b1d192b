//! The orders of octets. They are compared as numbers, which takes one step in place of eight.

ghost use Rattle.std.specs.Prelude.{◌≡◌, take, drop};
ghost use Rattle.std.specs.Int.{from_be_bytes};
ghost use Rattle.std.specs.Str.{bytes_eq};
ghost use Rattle.babel_value.specs.Orders.{octets_cmp};

use std::cmp::Ordering;

/// How 4 octets compare.
#[inline]
#[tactic(auto, using(crate::proofs::Numbers::cmp_numbers4))]
pub(crate) fn compare4(one: &[u8; 4], other: &[u8; 4]) -> Ordering
    ensures { result ≡ octets_cmp one.now other.now }
{
    u32::from_be_bytes(*one).cmp(&u32::from_be_bytes(*other))
}

/// How 8 octets compare.
#[inline]
#[tactic(auto, using(crate::proofs::Numbers::cmp_numbers8))]
pub(crate) fn compare8(one: &[u8; 8], other: &[u8; 8]) -> Ordering
    ensures { result ≡ octets_cmp one.now other.now }
{
    u64::from_be_bytes(*one).cmp(&u64::from_be_bytes(*other))
}

/// Whether 8 octets are the same.
#[inline]
#[tactic(auto, using(crate::proofs::Numbers::equal_numbers8))]
pub(crate) fn are_equal8(one: &[u8; 8], other: &[u8; 8]) -> bool
    ensures { result ≡ bytes_eq one.now other.now }
{
    u64::from_be_bytes(*one) == u64::from_be_bytes(*other)
}

/// How 16 octets compare.
#[inline]
pub(crate) fn compare16(one: &[u8; 16], other: &[u8; 16]) -> Ordering
    ensures { result ≡ octets_cmp one.now other.now }
{
    let first = compare8(&first_half(one), &first_half(other));
    if first.is_ne() {
        return first;
    }
    compare8(&last_half(one), &last_half(other))
}

#[inline]
#[tactic(auto, using(crate::proofs::Numbers::first_eight))]
pub(crate) fn first_half(octets: &[u8; 16]) -> [u8; 8]
    ensures { result ≡ take 8 octets.now }
{
    let [a, b, c, d, e, f, g, h, ..] = *octets;
    [a, b, c, d, e, f, g, h]
}

#[inline]
#[tactic(auto, using(crate::proofs::Numbers::last_eight))]
pub(crate) fn last_half(octets: &[u8; 16]) -> [u8; 8]
    ensures { result ≡ drop 8 octets.now }
{
    let [.., a, b, c, d, e, f, g, h] = *octets;
    [a, b, c, d, e, f, g, h]
}
