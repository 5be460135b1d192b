//! What the system reports of a device: its number, its link-local address, and whether anyone on
//! this machine has joined the group of Babel routers on it.

use crate::DeviceFault;
use std::alloc::Global;
use std::fs::{self, Files};
use std::io::{self, Read};

/// Where the system lists the IPv6 addresses of all devices.
const ADDRESSES: &str = "/proc/net/if_inet6";

/// Where it lists the groups that anyone on this machine has joined.
const GROUPS: &str = "/proc/net/igmp6";

/// The group ff02::1:6 (RFC 8966, section 4), as that file writes it.
const GROUP_TEXT: &str = "ff020000000000000000000000010006";

/// The scope of link-local addresses, as the list of addresses writes it.
const LINK_SCOPE: &str = "20";

/// The flag of an address that may still turn out to be another machine's (RFC 4862, section 5.4).
const TENTATIVE: u32 = 0x40;

/// The most octets of such a list.
const MAX_LIST_LEN: u64 = 1 << 20;

/// A device as it is now.
#[derive(Clone, Copy, PartialEq, Eq)]
pub struct Device {
    /// Its number, which is the scope of its link-local addresses.
    pub scope: u32,
    /// Its first link-local address.
    pub address: [u8; 16],
}

/// The lists of addresses and groups, as they were read together.
#[derive(Drop)]
pub struct Lists {
    addresses: String,
    groups: String,
}

impl Lists {
    /// Reads both lists.
    ///
    /// # Errors
    ///
    /// One of them can't be read, or isn't a text.
    pub fn read<F: Files>(alloc: Global, files: &F) -> io::Result<Lists> {
        Ok(Lists {
            addresses: read_list(alloc, files, ADDRESSES)?,
            groups: read_list(alloc, files, GROUPS)?,
        })
    }

    /// The device of this name, if a speaker can send and receive over it. Of several link-local
    /// addresses it is the preferred one, or else the first.
    ///
    /// # Errors
    ///
    /// The device has no link-local address, it isn't sure yet that the address is free, or nobody
    /// has joined the group on it.
    pub fn device(&self, name: &str, preferred: Option<[u8; 16]>) -> Result<Device, DeviceFault> {
        let device = self.link_local(name, preferred)?;
        if self.is_member(name) {
            Ok(device)
        } else {
            Err(DeviceFault::NotMember)
        }
    }

    fn link_local(&self, name: &str, preferred: Option<[u8; 16]>) -> Result<Device, DeviceFault> {
        let mut found = Err(DeviceFault::NoAddress);
        for line in self.addresses.lines() {
            match address_in(line, name) {
                Some((device, false)) if preferred == Some(device.address) => return Ok(device),
                Some((device, false)) if found.is_err() => found = Ok(device),
                Some((_, true)) if found.is_err() => found = Err(DeviceFault::Tentative),
                _ => {}
            }
        }
        found
    }

    fn is_member(&self, name: &str) -> bool {
        for line in self.groups.lines() {
            if is_member_in(line, name) {
                return true;
            }
        }
        false
    }
}

fn read_list<F: Files>(alloc: Global, files: &F, path: &str) -> io::Result<String> {
    io::read_to_string(alloc, fs::open(files, path)?.take(MAX_LIST_LEN))
}

/// The device, and whether its address is tentative, if the line is of a link-local address of the
/// device of this name.
fn address_in(line: &str, name: &str) -> Option<(Device, bool)> {
    let mut fields = line.split_ascii_whitespace();
    // A field that is missing is empty, and so no number.
    let address = fields.next().unwrap_or("");
    let scope = fields.next().unwrap_or("");
    let reach = fields.nth(1).unwrap_or("");
    let flags = fields.next().unwrap_or("");
    if fields.next() != Some(name) || reach != LINK_SCOPE || !address.starts_with("fe80") {
        return None;
    }
    match (
        u128::from_str_radix(address, 16),
        u32::from_str_radix(scope, 16),
        u32::from_str_radix(flags, 16),
    ) {
        (Ok(address), Ok(scope), Ok(flags)) => {
            let address = address.to_be_bytes();
            Some((Device { scope, address }, flags & TENTATIVE != 0))
        }
        _ => None,
    }
}

/// Whether the line is of the group on the device of this name.
fn is_member_in(line: &str, name: &str) -> bool {
    let mut fields = line.split_ascii_whitespace();
    fields.nth(1) == Some(name) && fields.next() == Some(GROUP_TEXT)
}
