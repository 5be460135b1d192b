//! From which addresses datagrams are taken.

ghost use Rattle.std.specs.Prelude.{◌≡◌, ◌<◌, get_or, IsTrue};
ghost use Rattle.std.specs.List.{list_any};
ghost use Rattle.babel_value.specs.Prefixes.{cleared};
ghost use Rattle.babel_state.specs.Configs.{is_link_local};
ghost use Rattle.babel_state.specs.Addresses.{address_of, is_own_address, is_one_of, is_in_network, is_from_link};

use crate::tables::Interfaces;
use babel_state::InterfaceEntry;
use babel_value::{Addr, Family, keep_bits};

/// Whether an IPv6 address is in fe80::/10 (RFC 4291, section 2.5.6).
#[tactic(auto, unfolding(babel_state::specs::Configs::is_link_local))]
fn is_link_local(octets: &[u8; 16]) -> bool
    ensures { result ≡ is_link_local octets.now }
{
    octets[0] == 0xfe && octets[1] >> 6 == 0b10
}

/// The interface's own address of a family, if it has one.
pub fn address_of(family: Family, interface: &InterfaceEntry) -> Option<Addr>
    ensures { result ≡ address_of family interface.now }
{
    let ipv4 = interface.ipv4;
    let ipv6 = interface.ipv6;
    match family {
        Family::Ipv4 => match ipv4 {
            Some(network) => {
                let octets = network.0;
                Some(Addr::V4(octets))
            }
            None => None,
        },
        Family::Ipv6 => match ipv6 {
            Some(octets) => Some(Addr::V6(octets)),
            None => None,
        },
    }
}

/// Whether the own address, if there is one, is this one.
fn is_one_of(addr: &Addr, own: Option<Addr>) -> bool
    ensures { result ≡ is_one_of addr.now own }
{
    match own {
        Some(own) => addr.cmp(&own).is_eq(),
        None => false,
    }
}

/// Whether the address is one of the interface's own.
#[tactic(auto, unfolding(babel_state::specs::Addresses::is_own_address))]
pub fn is_own_address(addr: &Addr, interface: &InterfaceEntry) -> bool
    ensures { result ≡ is_own_address addr.now interface.now }
{
    is_one_of(addr, address_of(Family::Ipv4, interface))
        || is_one_of(addr, address_of(Family::Ipv6, interface))
}

/// The IPv4 address with the bits past the first ones cleared, of which there are this many.
#[tactic(auto, using(crate::proofs::Networks::cleared_four))]
fn first_bits(octets: &[u8; 4], bits: u8) -> [u8; 4]
    ensures { result ≡ cleared bits octets.now }
{
    let second = bits.saturating_sub(8);
    let third = second.saturating_sub(8);
    let fourth = third.saturating_sub(8);
    [
        keep_bits(octets[0], bits),
        keep_bits(octets[1], second),
        keep_bits(octets[2], third),
        keep_bits(octets[3], fourth),
    ]
}

/// Whether the two IPv4 addresses have the same first three octets.
fn share_three(octets: &[u8; 4], own: &[u8; 4]) -> bool
    ensures first { IsTrue result → get_or octets.now 0 0 ≡ get_or own.now 0 0 }
    ensures second { IsTrue result → get_or octets.now 1 0 ≡ get_or own.now 1 0 }
    ensures third { IsTrue result → get_or octets.now 2 0 ≡ get_or own.now 2 0 }
    ensures octets { (get_or octets.now 3 0 < 256) × (get_or own.now 3 0 < 256) }
{
    octets[0] == own[0] && octets[1] == own[1] && octets[2] == own[2]
}

/// Whether the two IPv4 addresses have the same first bits, this many. Mostly they differ in the
/// last octet alone, and no bit of that counts.
fn is_in_network(octets: &[u8; 4], network: &([u8; 4], u8)) -> bool
    ensures { result ≡ is_in_network octets.now network.now }
{
    let (own, length) = *network;
    if length <= 24 && share_three(octets, &own) {
        return true;
    }
    let source = Addr::V4(first_bits(octets, length));
    let own = Addr::V4(first_bits(&own, length));
    source.cmp(&own).is_eq()
}

/// Whether a neighbour on the interface's link may have the address.
#[tactic(auto, unfolding(babel_state::specs::Addresses::is_from_link))]
pub fn is_from_link(source: &Addr, interface: &InterfaceEntry) -> bool
    ensures { result ≡ is_from_link source.now interface.now }
{
    let ipv4 = interface.ipv4;
    match source {
        Addr::V4(octets) => match ipv4 {
            Some(network) => is_in_network(octets, &network),
            None => false,
        },
        Addr::V6(octets) => is_link_local(octets),
    }
}

impl Interfaces {
    /// Whether the address is an own address of some interface.
    pub fn have_address(&self, addr: &Addr) -> bool
        ensures { result ≡ list_any (is_own_address addr.now) self.now }
    {
        self.entries
            .iter()
            .any(|interface| is_own_address(addr, interface))
    }
}
