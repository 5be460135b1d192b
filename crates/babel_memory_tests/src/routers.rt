//! A router and a prefix.

use babel_state::{Config, Interface};
use babel_value::{Addr, Family, Prefix};
use std::alloc::{AllocError, Global};

/// Router `number`, with cost 96 and a Hello every 400 centiseconds at its interface,
/// 192.168.0.`number`/24.
pub(crate) fn router(alloc: Global, number: u8) -> Result<Config, AllocError> {
    let interface = Interface {
        transport: Family::Ipv4,
        ipv4: Some(([192, 168, 0, number], 24)),
        ipv6: None,
        peers: Vec::new(alloc),
        cost: 96,
        hello: 400,
    };
    Ok(Config {
        router_id: [0, 0, 0, 0, 0, 0, 0, number],
        seqno: 0,
        collect: false,
        prefixes: Vec::new(alloc),
        interfaces: vec![in alloc; interface]?,
    })
}

/// 10.0.0.0/8.
pub(crate) fn prefix() -> Prefix {
    Prefix::new_unchecked(Addr::V4([10, 0, 0, 0]), 8)
}
