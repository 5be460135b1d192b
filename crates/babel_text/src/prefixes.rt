//! Addresses with a length, and prefixes.

ghost use Rattle.babel_text.specs.Readings.{Reads};
ghost use Rattle.babel_text.specs.Prefixes.{IsNetworkText, IsPrefixText};

use crate::parse_u8;
use babel_value::{Addr, Prefix};

/// The address and the length of a text `address/length`. The length may be up to 255, and so
/// greater than the address is wide.
pub fn parse_network(text: &str) -> Option<(Addr, u8)>
    ensures { Reads IsNetworkText text.now result }
{
    let (addr, length) = text.split_once('/')?;
    let addr = addr.parse::<Addr>().ok()?;
    Some((addr, parse_u8(length)?))
}

/// The prefix of a text `address/length`, with the bits past the length cleared. The length may be
/// up to 32 for IPv4, and up to 128 for IPv6.
pub fn parse_prefix(text: &str) -> Option<Prefix>
    ensures { Reads IsPrefixText text.now result }
{
    let (addr, length) = parse_network(text)?;
    Prefix::new(addr, length)
}
