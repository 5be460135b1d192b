//! Prefixes (RFC 8966, section 4.1.5).

ghost use Rattle.std.specs.Prelude.{◌≡◌, ◌≤◌, ◌-◌, ◌%◌, ◌^◌, Some};
ghost use Rattle.babel_value.specs.Addresses.{width_of, family_of};
ghost use Rattle.babel_value.specs.Prefixes.{cleared_addr, cleared, prefix_of};
ghost use Rattle.babel_value.specs.Texts.{prefix_text};

use crate::{Addr, Family, Line};
use std::fmt;
use std::fmt::Display;
use std::marker::Model;

/// A prefix: an address and how many of its first bits count. The bits past the length are zero.
#[derive(Clone, Copy, Debug, PartialEq, Eq, PartialOrd, Ord, Hash)]
pub struct Prefix {
    addr: Addr,
    length: u8,
}

impl Model for Prefix {
    ghost use Rattle.std.specs.Prelude.{◌≡◌, ◌≤◌, ◌-◌, ◌%◌, ◌^◌};
    ghost use Rattle.babel_value.specs.Addresses.{width_of};
    ghost use Rattle.babel_value.specs.Prefixes.{PrefixValue, cleared_addr};

    ghost Value = { PrefixValue };

    ghost view = { λ p. record { addr = p.addr; length = p.length } };

    ghost invariant = { λ p. (p.length ≤ width_of p.addr) × (cleared_addr p.length p.addr ≡ p.addr) };

    ghost inverse = { λ v. record { addr = v.addr; length = v.length } };
}

impl Prefix {
    /// The prefix of this address and length, with the bits past the length cleared. `None` exactly
    /// if the length is greater than the address is wide: 32 or 128.
    pub fn new(addr: Addr, length: u8) -> Option<Prefix>
        ensures { result ≡ prefix_of addr length }
    {
        if length > addr.width() {
            return None;
        }
        let addr = clear_address(addr, length);
        Some(Prefix { addr, length })
    }

    /// The prefix of an address whose bits past the length are zero already, which isn't tested.
    #[inline]
    pub fn new_unchecked(addr: Addr, length: u8) -> Prefix
        requires short { length ≤ width_of addr }
        requires clear { cleared_addr length addr ≡ addr }
        ensures { result ≡ record { addr = addr; length = length } }
    {
        Prefix { addr, length }
    }

    /// The address, with the bits past the length zero.
    pub fn addr(&self) -> Addr
        ensures value { result ≡ self.now.addr }
        ensures clear { cleared_addr self.now.length result ≡ result }
    {
        self.addr
    }

    /// The address where it is.
    #[inline]
    pub(crate) fn addr_ref(&self) -> &Addr
        ensures { result.now ≡ self.now.addr }
    {
        &self.addr
    }

    /// How many bits count.
    pub fn length(&self) -> u8
        ensures value { result ≡ self.now.length }
        ensures short { result ≤ width_of self.now.addr }
    {
        self.length
    }

    /// The family of the address.
    pub fn family(&self) -> Family
        ensures { result ≡ family_of self.now.addr }
    {
        self.addr.family()
    }
}

/// The address with the bits past the first `length` cleared.
fn clear_address(addr: Addr, length: u8) -> Addr
    ensures { result ≡ cleared_addr length addr }
{
    match addr {
        Addr::V4(mut octets) => {
            clear_past(&mut octets, length);
            Addr::V4(octets)
        }
        Addr::V6(mut octets) => {
            clear_past(&mut octets, length);
            Addr::V6(octets)
        }
    }
}

/// Clears the bits past the first `length`.
fn clear_past(octets: &mut [u8], length: u8)
    ensures { octets.new ≡ cleared length octets.old }
{
    let mut left = length;
    for octet in octets.iter_mut() {
        *octet = keep_bits(*octet, left);
        left = left.saturating_sub(8);
    }
}

/// The octet with the bits past the first `bits` cleared.
#[inline]
pub fn keep_bits(octet: u8, bits: u8) -> u8
    ensures { result ≡ octet - octet % 2 ^ (8 - bits) }
{
    if bits >= 8 {
        return octet;
    }
    if bits == 0 {
        return 0;
    }
    let dropped = 8 - bits;
    (octet >> dropped) << dropped
}

/// `address/length`.
impl fmt::Display for Prefix {
    ghost output = { λ p. Some (prefix_text p) };

    fn fmt<W: fmt::Write>(&self, f: &mut fmt::Formatter<W>) -> fmt::Result {
        let mut line = Line::new();
        line.push_prefix(self);
        line.fmt(f)
    }
}
