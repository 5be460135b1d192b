//! The keys of the file's tables, and what their values are.

use std::fmt;

/// What the value at a key is.
#[derive(Clone, Copy)]
pub enum Kind {
    /// 16 hexadecimal digits.
    RouterId,
    /// True or false.
    TruthValue,
    /// A prefix.
    Prefix,
    /// A list of them.
    Prefixes,
    /// A number from the first to the second.
    Number(u16, u16),
    /// An IPv4 address with the length of its network's prefix.
    Network,
    /// A table for each device.
    Devices,
    /// The settings of a device.
    Device,
}

/// What the value must be, after `is not` or `must be`.
impl fmt::Display for Kind {
    fn fmt<W: fmt::Write>(&self, f: &mut fmt::Formatter<W>) -> fmt::Result {
        match *self {
            Kind::RouterId => f.write_str("a router-id of 16 hexadecimal digits"),
            Kind::TruthValue => f.write_str("true or false"),
            Kind::Prefix => f.write_str("a prefix, as 10.0.0.0/8 or 2001:db8::/32"),
            Kind::Prefixes => f.write_str("a list of prefixes, as [\"10.0.0.0/8\"]"),
            Kind::Number(least, greatest) => { write!(f, "a number from {least} to {greatest}") }
            Kind::Network => f.write_str("an IPv4 address with a length, as 192.168.0.2/24"),
            Kind::Devices => f.write_str("tables, as [device.eth0]"),
            Kind::Device => f.write_str("a table, as [device.eth0]"),
        }
    }
}

/// The key under which the tables of devices are.
pub const DEVICE: &str = "device";

/// The keys of the file itself.
pub const FILE_KEYS: &str = "router-id, collect, prefixes, device";

/// The keys of a device.
pub const DEVICE_KEYS: &str = "cost, hello, ipv4";

/// What the value at a key of the file is, if there is such a key.
pub(crate) fn kind_in_file(key: &str) -> Option<Kind> {
    match key {
        "router-id" => Some(Kind::RouterId),
        "collect" => Some(Kind::TruthValue),
        "prefixes" => Some(Kind::Prefixes),
        DEVICE => Some(Kind::Devices),
        _ => None,
    }
}

/// What the value at a key of a device is, if there is such a key.
pub(crate) fn kind_in_device(key: &str) -> Option<Kind> {
    match key {
        "cost" => Some(Kind::Number(1, 65534)),
        "hello" => Some(Kind::Number(1, 4000)),
        "ipv4" => Some(Kind::Network),
        _ => None,
    }
}
