//! Addresses, prefixes and router-ids, as babeld writes them.

ghost use Rattle.std.specs.Prelude.{◌≡◌, Some};
ghost use Rattle.babel_control.specs.Texts.{addr_text, prefix_text, all_sources as sources_of, four_text, router_text};

use babel_value::{Addr, Prefix, RouterId};
use std::fmt;
use std::net::{Ipv4Addr, Ipv6Addr};

/// An address. One of IPv6 is in its short form (RFC 5952).
#[derive(Clone, Copy)]
pub(crate) struct AddrText<'t>(pub(crate) &'t Addr);

impl fmt::Display for AddrText<'_> {
    ghost output = { λ text. Some (addr_text text.0.now) };

    fn fmt<W: fmt::Write>(&self, f: &mut fmt::Formatter<W>) -> fmt::Result {
        match self.0 {
            Addr::V4(octets) => Ipv4Addr::from_octets(*octets).fmt(f),
            Addr::V6(octets) => Ipv6Addr::from_octets(*octets).fmt(f),
        }
    }
}

/// A prefix, with the address in that form.
#[derive(Clone, Copy)]
pub(crate) struct PrefixText<'t>(pub(crate) &'t Prefix);

impl fmt::Display for PrefixText<'_> {
    ghost output = { λ text. Some (prefix_text text.0.now) };

    fn fmt<W: fmt::Write>(&self, f: &mut fmt::Formatter<W>) -> fmt::Result {
        let addr = self.0.addr();
        let length = self.0.length();
        let addr = AddrText(&addr);
        write!(f, "{addr}/{length}")
    }
}

/// The prefix of all sources, in the family of this one.
pub(crate) fn all_sources(prefix: &Prefix) -> &'static str
    ensures { result.now ≡ sources_of prefix.now.addr }
{
    match prefix.addr() {
        Addr::V4(_) => "0.0.0.0/0",
        Addr::V6(_) => "::/0",
    }
}

/// A router-id: eight octets with colons between them.
#[derive(Clone, Copy)]
pub(crate) struct RouterText(pub(crate) RouterId);

impl fmt::Display for RouterText {
    ghost output = { λ text. Some (router_text text.0) };

    fn fmt<W: fmt::Write>(&self, f: &mut fmt::Formatter<W>) -> fmt::Result {
        let [a, b, c, d, e, g, h, i] = self.0.octets();
        let first = FourText(a, b, c, d);
        let last = FourText(e, g, h, i);
        write!(f, "{first}:{last}")
    }
}

/// Four octets, each as two lower case hexadecimal digits, with colons between them.
#[derive(Clone, Copy)]
struct FourText(u8, u8, u8, u8);

impl fmt::Display for FourText {
    ghost output = { λ text. Some (four_text text.0 text.1 text.2 text.3) };

    #[tactic(auto, unfolding(crate::specs::Texts::four_text, crate::specs::Texts::octet_text))]
    fn fmt<W: fmt::Write>(&self, f: &mut fmt::Formatter<W>) -> fmt::Result {
        let FourText(a, b, c, d) = *self;
        write!(f, "{a:02x}:{b:02x}:{c:02x}:{d:02x}")
    }
}
