//! Addresses read from text.

ghost use Rattle.std.specs.Net.Grammar.{Parses};
ghost use Rattle.babel_value.specs.Texts.{IsAddrText};

use crate::{Addr, AddrTextFault};
use std::net::{Ipv4Addr, Ipv6Addr};
use std::str::FromStr;

/// Reads IPv4 as four decimal numbers without leading zeros, and IPv6 as groups of one to four
/// hexadecimal digits of either case, with at most one `::`, which abbreviates at least one group.
/// There is no zone, and no IPv4 address inside an IPv6 one.
impl FromStr for Addr {
    type Err = AddrTextFault;

    ghost from_str_gives = { Parses IsAddrText };

    fn from_str(text: &str) -> Result<Addr, AddrTextFault> {
        Addr::parse_ascii(text.as_bytes())
    }
}

impl Addr {
    /// The address that these octets of text spell, as [`FromStr`] reads it.
    pub fn parse_ascii(text: &[u8]) -> Result<Addr, AddrTextFault>
        ensures { Parses IsAddrText text.now result }
    {
        if let Ok(addr) = Ipv4Addr::parse_ascii(text) {
            return Ok(Addr::V4(addr.octets()));
        }
        if text.contains(&b'.') {
            return Err(AddrTextFault);
        }
        match Ipv6Addr::parse_ascii(text) {
            Ok(addr) => Ok(Addr::V6(addr.octets())),
            Err(_) => Err(AddrTextFault),
        }
    }
}
