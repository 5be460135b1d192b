//! The kinds of single values: numbers, truth values, and texts.

use babel_text::{parse_network, parse_prefix, parse_router_id};
use babel_toml::{FileFault, Kind};
use babel_value::{Addr, Family, Prefix};
use std::alloc::Global;
use toml::Value;

/// A number from 0 to 65535.
pub(crate) struct Number;

impl Kind for Number {
    ghost use Rattle.babel_config.specs.Scalars.{IsNumber};
    ghost use Rattle.babel_toml.specs.Faults.{HasFormFault};

    type Output = u16;

    ghost means = { IsNumber };

    ghost fault = { HasFormFault IsNumber };

    fn read(_alloc: Global, value: &Value) -> Result<u16, FileFault> {
        let number = value.as_integer().ok_or(FileFault::Form)?;
        u16::try_from(number).map_err(|_| FileFault::Form)
    }
}

/// A truth value.
pub(crate) struct Flag;

impl Kind for Flag {
    ghost use Rattle.babel_config.specs.Scalars.{IsFlag};
    ghost use Rattle.babel_toml.specs.Faults.{HasFormFault};

    type Output = bool;

    ghost means = { IsFlag };

    ghost fault = { HasFormFault IsFlag };

    fn read(_alloc: Global, value: &Value) -> Result<bool, FileFault> {
        value.as_bool().ok_or(FileFault::Form)
    }
}

/// The word of a family of addresses: `ipv4` or `ipv6`.
pub(crate) struct Transport;

impl Kind for Transport {
    ghost use Rattle.babel_config.specs.Scalars.{IsTransport};
    ghost use Rattle.babel_toml.specs.Faults.{HasFormFault};

    type Output = Family;

    ghost means = { IsTransport };

    ghost fault = { HasFormFault IsTransport };

    fn read(_alloc: Global, value: &Value) -> Result<Family, FileFault> {
        match value.as_str() {
            Some("ipv4") => Ok(Family::Ipv4),
            Some("ipv6") => Ok(Family::Ipv6),
            _ => Err(FileFault::Form),
        }
    }
}

/// The text of an address.
pub(crate) struct AddrText;

impl Kind for AddrText {
    ghost use Rattle.babel_value.specs.Texts.{IsAddrText};
    ghost use Rattle.babel_toml.specs.Values.{IsText};
    ghost use Rattle.babel_toml.specs.Faults.{HasTextFault};

    type Output = Addr;

    ghost means = { IsText IsAddrText };

    ghost fault = { HasTextFault IsAddrText };

    fn read(_alloc: Global, value: &Value) -> Result<Addr, FileFault> {
        let text = value.as_str().ok_or(FileFault::Form)?;
        text.parse::<Addr>().map_err(|_| FileFault::Text)
    }
}

/// The text of a prefix.
pub(crate) struct PrefixText;

impl Kind for PrefixText {
    ghost use Rattle.babel_text.specs.Prefixes.{IsPrefixText};
    ghost use Rattle.babel_toml.specs.Values.{IsText};
    ghost use Rattle.babel_toml.specs.Faults.{HasTextFault};

    type Output = Prefix;

    ghost means = { IsText IsPrefixText };

    ghost fault = { HasTextFault IsPrefixText };

    fn read(_alloc: Global, value: &Value) -> Result<Prefix, FileFault> {
        let text = value.as_str().ok_or(FileFault::Form)?;
        parse_prefix(text).ok_or(FileFault::Text)
    }
}

/// The text of a router-id, reserved or not.
pub(crate) struct RouterIdText;

impl Kind for RouterIdText {
    ghost use Rattle.babel_text.specs.RouterIds.{IsRouterIdText};
    ghost use Rattle.babel_toml.specs.Values.{IsText};
    ghost use Rattle.babel_toml.specs.Faults.{HasTextFault};

    type Output = [u8; 8];

    ghost means = { IsText IsRouterIdText };

    ghost fault = { HasTextFault IsRouterIdText };

    fn read(_alloc: Global, value: &Value) -> Result<[u8; 8], FileFault> {
        let text = value.as_str().ok_or(FileFault::Form)?;
        parse_router_id(text).ok_or(FileFault::Text)
    }
}

/// The text `address/length` of an IPv4 address and the length of its network's prefix, which may
/// be up to 255.
pub(crate) struct Ipv4NetworkText;

impl Kind for Ipv4NetworkText {
    ghost use Rattle.babel_config.specs.Scalars.{IsIpv4NetworkText};
    ghost use Rattle.babel_toml.specs.Values.{IsText};
    ghost use Rattle.babel_toml.specs.Faults.{HasTextFault};

    type Output = ([u8; 4], u8);

    ghost means = { IsText IsIpv4NetworkText };

    ghost fault = { HasTextFault IsIpv4NetworkText };

    fn read(_alloc: Global, value: &Value) -> Result<([u8; 4], u8), FileFault> {
        let text = value.as_str().ok_or(FileFault::Form)?;
        match parse_network(text) {
            Some((Addr::V4(octets), length)) => Ok((octets, length)),
            _ => Err(FileFault::Text),
        }
    }
}

/// The text of an IPv6 address.
pub(crate) struct Ipv6AddrText;

impl Kind for Ipv6AddrText {
    ghost use Rattle.babel_config.specs.Scalars.{IsIpv6AddrText};
    ghost use Rattle.babel_toml.specs.Values.{IsText};
    ghost use Rattle.babel_toml.specs.Faults.{HasTextFault};

    type Output = [u8; 16];

    ghost means = { IsText IsIpv6AddrText };

    ghost fault = { HasTextFault IsIpv6AddrText };

    fn read(_alloc: Global, value: &Value) -> Result<[u8; 16], FileFault> {
        let text = value.as_str().ok_or(FileFault::Form)?;
        match text.parse::<Addr>() {
            Ok(Addr::V6(octets)) => Ok(octets),
            _ => Err(FileFault::Text),
        }
    }
}
