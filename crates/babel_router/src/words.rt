//! What the command line and the file of `--config` ask for.

use crate::running::{Printed, RunOptions, run};
use crate::{RunFault, WordsFault};
use babel_config::{FileFault, read_file};
use babel_control::parse_place;
use babel_devices::{DeviceSettings, Ipv4Network, Settings, network_of};
use babel_router_file::{RouterFile, read_router_file};
use babel_snapshot_file::{Kept, LockFile};
use babel_text::{parse_prefix, parse_router_id};
use babel_value::Prefix;
use std::alloc::{AllocError, Global};
use std::fs::{self, Files};
use std::io::{Read, Write};
use std::net::Net;
use std::os::fd::AsRawFd;
use std::time::Clock;

/// The nominal cost of a device if none is given (RFC 8966, appendix A.2.1).
const DEFAULT_COST: u16 = 96;

/// The interval between two Hellos if none is given, in centiseconds (RFC 8966, appendix B).
const DEFAULT_HELLO: u16 = 400;

/// The words of the command line, as they were written.
#[derive(Clone, Copy)]
pub struct RunWords<'a> {
    /// The devices, by the numbers of the interfaces.
    pub devices: &'a [&'a str],
    /// The router-id. It comes before that of the file.
    pub router_id: Option<&'a str>,
    /// The prefixes that the speaker announces, besides those of the file.
    pub announce: &'a [&'a str],
    /// The IPv4 addresses of devices, each as `eth0=192.168.0.1/24`. One of the file comes before
    /// them.
    pub ipv4: &'a [&'a str],
    /// The nominal cost of receiving over a device that has none in the file.
    pub cost: Option<u16>,
    /// The interval between two Hellos, in centiseconds, of a device that has none in the file.
    pub hello: Option<u16>,
    /// The file with settings by device.
    pub config: Option<&'a str>,
    /// The UDP port of all speakers.
    pub port: u16,
    /// After how many turns the run ends.
    pub turns: u64,
    /// Where the snapshot is kept.
    pub keep: Option<Kept<'a>>,
    /// Where the control socket is: a path, or a port of this machine.
    pub control: Option<&'a str>,
    /// Each change of a selected route, and all of them at the end.
    pub routes: Printed,
    /// Each change of a selected route, as a command for `ip -force -batch -`.
    pub commands: Printed,
}

/// Runs a speaker as the words ask for it, see [`run`].
///
/// # Errors
///
/// F1 to F5 of the file, F3 of a word, and those of `run`.
pub fn run_words<'a, R, I: Read + AsRawFd, W: Write, E: Write>(
    rt: &R,
    words: RunWords<'a>,
    input: &mut I,
    out: &mut W,
    err: &mut E,
) -> Result<(), WordsFault<'a>>
where
    R: AllocGlobal + Net + Clock + Files,
    R::File: LockFile,
{
    let file = match file_of(rt, words.config) {
        Ok(file) => file,
        Err(fault) => return Err(WordsFault::File(fault)),
    };
    let alloc = rt.alloc();
    match devices_of(alloc, words, &file) {
        Ok(devices) => {
            let streams = Streams { input, out, err };
            run_devices(rt, words, &file, &devices, streams)
        }
        Err(fault) => Err(fault),
    }
}

/// The standard streams.
#[derive(Drop)]
struct Streams<'s, I: Read + AsRawFd, W: Write, E: Write> {
    input: &'s mut I,
    out: &'s mut W,
    err: &'s mut E,
}

fn run_devices<'a, R, I: Read + AsRawFd, W: Write, E: Write>(
    rt: &R,
    words: RunWords<'a>,
    file: &RouterFile,
    devices: &[DeviceSettings<'a>],
    streams: Streams<'_, I, W, E>,
) -> Result<(), WordsFault<'a>>
where
    R: AllocGlobal + Net + Clock + Files,
    R::File: LockFile,
{
    let router_id = router_id_of(words.router_id)?;
    let prefixes = prefixes_of(rt.alloc(), words.announce, file)?;
    let settings = Settings {
        router_id: router_id.or(file.router_id),
        prefixes: &prefixes,
        collect: file.collect,
    };
    match run_settings(rt, &words, &*devices, settings, streams) {
        Ok(()) => Ok(()),
        Err(fault) => Err(WordsFault::Run(fault)),
    }
}

fn run_settings<'x, R, I: Read + AsRawFd, W: Write, E: Write>(
    rt: &R,
    words: &RunWords<'x>,
    devices: &'x [DeviceSettings<'x>],
    settings: Settings<'x>,
    streams: Streams<'_, I, W, E>,
) -> Result<(), RunFault>
where
    R: AllocGlobal + Net + Clock + Files,
    R::File: LockFile,
{
    let control = match words.control {
        Some(text) => match parse_place(text) {
            Some(place) => Some(place),
            None => return Err(RunFault::Control),
        },
        None => None,
    };
    let keep = words.keep;
    let options = RunOptions {
        names: words.devices,
        devices,
        settings,
        port: words.port,
        turns: words.turns,
        keep,
        control,
        routes: words.routes,
        commands: words.commands,
    };
    let Streams { input, out, err } = streams;
    run(rt, options, input, out, err)
}

/// What is in the file, or nothing.
fn file_of<R: AllocGlobal + Files>(rt: &R, path: Option<&str>) -> Result<RouterFile, FileFault> {
    let alloc = rt.alloc();
    let Some(path) = path else {
        return Ok(RouterFile::empty(alloc));
    };
    let octets = read_file(alloc, fs::open(rt, path)?)?;
    read_router_file(alloc, &octets)
}

/// The prefixes of the file, and those of the words.
fn prefixes_of<'a>(
    alloc: Global,
    announce: &[&'a str],
    file: &RouterFile,
) -> Result<Vec<Prefix>, WordsFault<'a>> {
    let mut prefixes = file.prefixes.to_vec(alloc)?;
    for text in announce {
        let Some(prefix) = parse_prefix(text) else {
            return Err(WordsFault::Prefix(text));
        };
        prefixes.push(prefix).map_err(AllocError::from)?;
    }
    Ok(prefixes)
}

fn router_id_of(text: Option<&str>) -> Result<Option<[u8; 8]>, WordsFault<'_>> {
    let Some(text) = text else {
        return Ok(None);
    };
    match parse_router_id(text) {
        Some(octets) => Ok(Some(octets)),
        None => Err(WordsFault::RouterId(text)),
    }
}

/// The settings of each device: those of the file, or else those of the words.
fn devices_of<'a>(
    alloc: Global,
    words: RunWords<'a>,
    file: &RouterFile,
) -> Result<Vec<DeviceSettings<'a>>, WordsFault<'a>> {
    check_devices(words.devices)?;
    check_addresses(words)?;
    let mut devices = Vec::new(alloc);
    for name in words.devices {
        devices
            .push(device_of(words, name, file))
            .map_err(AllocError::from)?;
    }
    Ok(devices)
}

/// Two sockets can't be bound to the address of one device.
fn check_devices<'a>(names: &[&'a str]) -> Result<(), WordsFault<'a>> {
    for (number, name) in names.iter().enumerate() {
        if is_among(names.get(..number).unwrap_or(&[]), name) {
            return Err(WordsFault::Twice(name));
        }
    }
    Ok(())
}

/// Each address of the words is that of one of the devices.
fn check_addresses<'a>(words: RunWords<'a>) -> Result<(), WordsFault<'a>> {
    for text in words.ipv4 {
        let Some((name, _)) = address_of(text) else {
            return Err(WordsFault::Address(text));
        };
        if !is_among(words.devices, name) {
            return Err(WordsFault::OtherDevice(text));
        }
    }
    Ok(())
}

fn is_among(names: &[&str], name: &str) -> bool {
    for other in names {
        if *other == name {
            return true;
        }
    }
    false
}

fn device_of<'a>(words: RunWords<'a>, name: &'a str, file: &RouterFile) -> DeviceSettings<'a> {
    let (ipv4, cost, hello) = match file.device(name) {
        Some(table) => (table.ipv4, table.cost, table.hello),
        None => (None, None, None),
    };
    DeviceSettings {
        name,
        ipv4: ipv4.or(ipv4_of(words.ipv4, name)),
        is_ipv4_fixed: ipv4.is_some(),
        cost: cost.or(words.cost).unwrap_or(DEFAULT_COST),
        hello: hello.or(words.hello).unwrap_or(DEFAULT_HELLO),
    }
}

/// The last address that is given for the device.
fn ipv4_of(addresses: &[&str], name: &str) -> Option<Ipv4Network> {
    let mut found = None;
    for text in addresses {
        if let Some((owner, network)) = address_of(text) {
            if owner == name {
                found = Some(network);
            }
        }
    }
    found
}

fn address_of(text: &str) -> Option<(&str, Ipv4Network)> {
    let (name, network) = text.split_once('=')?;
    Some((name, network_of(Some(network))?))
}

/// L8.
impl From<AllocError> for WordsFault<'_> {
    fn from(error: AllocError) -> Self {
        WordsFault::Run(RunFault::from(error))
    }
}
