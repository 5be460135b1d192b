//! The keys of a configuration and of its interfaces.

use crate::keys::{TableKind, is_table_of};
use crate::lists::given_list;
use crate::scalars::{
    AddrText, Flag, Ipv4NetworkText, Ipv6AddrText, Number, PrefixText, RouterIdText, Transport,
};
use babel_state::{Config, Interface};
use babel_toml::{FileFault, Kind, given_or, optional, required};
use std::alloc::Global;
use toml::Value;

/// The nominal cost of an interface that names none: that of a wired link (RFC 8966, appendix B).
const DEFAULT_COST: u16 = 96;

/// The Hello interval of an interface that names none, in centiseconds (RFC 8966, appendix B).
const DEFAULT_HELLO_INTERVAL: u16 = 400;

/// A table of a configuration.
pub(crate) struct ConfigTable;

impl Kind for ConfigTable {
    ghost use Rattle.babel_config.specs.Configs.{IsConfig, HasConfigFault};

    type Output = Config;

    ghost means = { IsConfig };

    ghost fault = { HasConfigFault };

    fn read(alloc: Global, value: &Value) -> Result<Config, FileFault> {
        if !is_table_of(TableKind::Config, value) {
            return Err(FileFault::Form);
        }
        let router_id = required::<RouterIdText>(alloc, value, "router-id")?;
        let seqno = given_or::<Number>(alloc, value, "seqno", 0)?;
        let collect = given_or::<Flag>(alloc, value, "collect", false)?;
        let prefixes = given_list::<PrefixText>(alloc, value, "prefixes")?;
        let interfaces = given_list::<InterfaceTable>(alloc, value, "interface")?;
        Ok(Config {
            router_id,
            seqno,
            collect,
            prefixes,
            interfaces,
        })
    }
}

/// A table of an interface.
struct InterfaceTable;

impl Kind for InterfaceTable {
    ghost use Rattle.babel_config.specs.Configs.{IsInterface, HasInterfaceFault};

    type Output = Interface;

    ghost means = { IsInterface };

    ghost fault = { HasInterfaceFault };

    fn read(alloc: Global, value: &Value) -> Result<Interface, FileFault> {
        if !is_table_of(TableKind::Interface, value) {
            return Err(FileFault::Form);
        }
        let transport = required::<Transport>(alloc, value, "transport")?;
        let ipv4 = optional::<Ipv4NetworkText>(alloc, value, "ipv4")?;
        let ipv6 = optional::<Ipv6AddrText>(alloc, value, "ipv6")?;
        let peers = given_list::<AddrText>(alloc, value, "peers")?;
        let cost = given_or::<Number>(alloc, value, "cost", DEFAULT_COST)?;
        let hello = given_or::<Number>(alloc, value, "hello", DEFAULT_HELLO_INTERVAL)?;
        Ok(Interface {
            transport,
            ipv4,
            ipv6,
            peers,
            cost,
            hello,
        })
    }
}
