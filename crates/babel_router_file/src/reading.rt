//! What is read of a file.

use crate::keys::DEVICE;
use crate::problems::first_problem;
use babel_config::{FileFault, MAX_FILE_LEN};
use babel_text::{parse_network, parse_prefix, parse_router_id};
use babel_value::{Addr, Prefix};
use std::alloc::Global;
use toml::{Table, Value};

/// The settings of a device. What is `None` isn't in the file.
#[derive(Drop)]
pub struct DeviceTable {
    /// The device's name.
    pub name: String,
    /// The nominal cost of receiving over it, 1 to 65534 (RFC 8966, appendix A.2.1).
    pub cost: Option<u16>,
    /// The interval between two Hellos, 1 to 4000 centiseconds (RFC 8966, section 3.4.1).
    pub hello: Option<u16>,
    /// Its IPv4 address, and the length of its network's prefix.
    pub ipv4: Option<([u8; 4], u8)>,
}

/// What a router is, and its settings by device.
#[derive(Drop)]
pub struct RouterFile {
    /// The router-id (RFC 8966, section 4.1.3).
    pub router_id: Option<[u8; 8]>,
    /// Whether sources are forgotten after some time.
    pub collect: bool,
    /// The prefixes that the router announces.
    pub prefixes: Vec<Prefix>,
    /// The devices, in the order of their names.
    pub devices: Vec<DeviceTable>,
}

impl RouterFile {
    /// What a router has without a file.
    pub fn empty(alloc: Global) -> RouterFile {
        RouterFile {
            router_id: None,
            collect: false,
            prefixes: Vec::new(alloc),
            devices: Vec::new(alloc),
        }
    }

    /// The settings of the device of this name.
    pub fn device(&self, name: &str) -> Option<&DeviceTable> {
        for device in &self.devices {
            if device.name.as_str() == name {
                return Some(device);
            }
        }
        None
    }
}

/// Reads the octets of such a file.
///
/// # Errors
///
/// F5 if there are more than 1,048,576 octets, F1 if they are no TOML, F2 for a key or a value of
/// the wrong kind, F3 for a text that can't be read, by the first problem in the order of the keys,
/// F4 if an allocation fails.
pub fn read_router_file(alloc: Global, octets: &[u8]) -> Result<RouterFile, FileFault> {
    if octets.len() > MAX_FILE_LEN {
        return Err(FileFault::Unreadable);
    }
    match toml::table_from_slice(alloc, octets) {
        Ok(table) => router_of(alloc, &table),
        Err(error) if error.is_memory() => Err(FileFault::Memory),
        Err(_) => Err(FileFault::NotToml),
    }
}

fn router_of(alloc: Global, file: &Table) -> Result<RouterFile, FileFault> {
    if let Some(problem) = first_problem(file) {
        return Err(problem.fault());
    }
    let mut router = RouterFile::empty(alloc);
    read_router(alloc, file, &mut router)?;
    Ok(router)
}

fn read_router(alloc: Global, file: &Table, router: &mut RouterFile) -> Result<(), FileFault> {
    router.router_id = router_id_at(file, "router-id");
    router.collect = matches!(file.get("collect"), Some(Value::Boolean(true)));
    if let Some(Value::Table(tables)) = file.get(DEVICE) {
        read_devices(alloc, tables, &mut router.devices)?;
    }
    if let Some(Value::Array(items)) = file.get("prefixes") {
        read_prefixes(items.as_slice(), &mut router.prefixes)?;
    }
    Ok(())
}

fn read_devices(
    alloc: Global,
    tables: &Table,
    devices: &mut Vec<DeviceTable>,
) -> Result<(), FileFault> {
    for (name, value) in tables.iter() {
        if let Value::Table(table) = value {
            devices.push(device_of(alloc, name.as_str(), table)?)?;
        }
    }
    Ok(())
}

fn device_of(alloc: Global, name: &str, table: &Table) -> Result<DeviceTable, FileFault> {
    let name = name.to_string(alloc)?;
    Ok(DeviceTable {
        name,
        cost: number_at(table, "cost"),
        hello: number_at(table, "hello"),
        ipv4: network_at(table, "ipv4"),
    })
}

fn read_prefixes(items: &[Value], prefixes: &mut Vec<Prefix>) -> Result<(), FileFault> {
    for item in items {
        if let Some(prefix) = prefix_of(item) {
            prefixes.push(prefix)?;
        }
    }
    Ok(())
}

fn prefix_of(item: &Value) -> Option<Prefix> {
    parse_prefix(item.as_str()?)
}

fn text_at<'t>(table: &'t Table, key: &str) -> Option<&'t str> {
    match table.get(key) {
        Some(value) => value.as_str(),
        None => None,
    }
}

fn router_id_at(table: &Table, key: &str) -> Option<[u8; 8]> {
    parse_router_id(text_at(table, key)?)
}

fn number_at(table: &Table, key: &str) -> Option<u16> {
    match table.get(key) {
        Some(Value::Integer(number)) => u16::try_from(*number).ok(),
        _ => None,
    }
}

fn network_at(table: &Table, key: &str) -> Option<([u8; 4], u8)> {
    match parse_network(text_at(table, key)?)? {
        (Addr::V4(octets), length) => Some((octets, length)),
        _ => None,
    }
}
