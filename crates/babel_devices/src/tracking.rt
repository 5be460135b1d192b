//! The devices of a run as they change, and what the launcher reports of them.

use crate::DeviceFault;
use crate::devices::{Device, Lists};
use crate::settings::DeviceSettings;
use babel_text::parse_network;
use babel_value::Addr;

/// An IPv4 address, and the length of its network's prefix.
pub type Ipv4Network = ([u8; 4], u8);

/// The address that the speaker's configuration has for a device that has none yet, fe80::. No
/// device has it: it stands for any router of the link (RFC 4291, section 2.6.1).
const NO_ADDRESS: [u8; 16] = [0xfe, 0x80, 0, 0, 0, 0, 0, 0, 0, 0, 0, 0, 0, 0, 0, 0];

/// A device of the run.
#[derive(Clone, Copy)]
pub struct Tracked<'a> {
    /// Its name, and what the speaker's configuration has for it.
    pub settings: DeviceSettings<'a>,
    /// The link-local address that the speaker's configuration has.
    pub address: [u8; 16],
    /// As it was seen last.
    state: Result<Device, DeviceFault>,
    /// Whether the launcher reported that it went down.
    was_down: bool,
    /// Whether the launcher reported that it lost its carrier, since it was looked at.
    lost_carrier: bool,
    /// Whether its sockets could not be opened the last time.
    has_failed: bool,
    /// The IPv4 address that the launcher reported last.
    ipv4: Option<Ipv4Network>,
    /// Whether the launcher reported anything since that was asked last.
    has_report: bool,
}

/// What has to be done for a device that was looked at.
#[derive(Clone, Copy)]
pub enum Step {
    /// Nothing: it is as it was.
    Nothing,
    /// It can't be used any more.
    Close(DeviceFault),
    /// It can be used, or it has to be opened again.
    Open(Device),
    /// It has lost its carrier: nobody is on its link.
    LoseCarrier,
}

/// What the launcher reports of a device.
#[derive(Clone, Copy)]
enum Change {
    /// It went down, though it may be up again.
    Down,
    /// It is up, and has lost its carrier.
    NoCarrier,
    /// It has this IPv4 address, or none.
    Up(Option<Ipv4Network>),
}

impl<'a> Tracked<'a> {
    /// A device as it is at the start. One that can't be used yet has no address of its own.
    pub fn of(settings: DeviceSettings<'a>, state: Result<Device, DeviceFault>) -> Tracked<'a> {
        let address = match state {
            Ok(device) => device.address,
            Err(_) => NO_ADDRESS,
        };
        Tracked {
            settings,
            address,
            state,
            was_down: false,
            lost_carrier: false,
            has_failed: false,
            ipv4: settings.ipv4,
            has_report: false,
        }
    }

    /// Whether the launcher reported anything of it since this was asked last.
    pub fn take_report(&mut self) -> bool {
        let has_report = self.has_report;
        self.has_report = false;
        has_report
    }

    /// The device, if it could be used when it was seen last.
    pub fn device(&self) -> Option<Device> {
        self.state.ok()
    }

    /// Why it couldn't be used when it was seen last.
    pub fn fault(&self) -> Option<DeviceFault> {
        self.state.err()
    }

    /// Whether it could not be used at the start, nor since.
    pub fn is_new(&self) -> bool {
        self.address == NO_ADDRESS
    }

    /// Looks at the device again.
    pub fn look(&mut self, lists: &Lists) -> Step {
        let seen = lists.device(self.settings.name, Some(self.address));
        let step = match seen {
            Err(fault) if self.state == Err(fault) => Step::Nothing,
            Err(fault) => Step::Close(fault),
            Ok(device) if self.state != seen || self.was_down => Step::Open(device),
            Ok(_) if self.lost_carrier => Step::LoseCarrier,
            Ok(_) => Step::Nothing,
        };
        self.state = seen;
        self.was_down = false;
        self.lost_carrier = false;
        step
    }

    /// Its sockets could not be opened; that is tried at the next look. Returns whether it is the
    /// first time.
    pub fn fail(&mut self) -> bool {
        let is_first = !self.has_failed;
        self.state = Err(DeviceFault::Socket);
        self.has_failed = true;
        is_first
    }

    /// Its sockets are open.
    pub fn note_opened(&mut self) {
        self.has_failed = false;
    }

    /// Takes the addresses that it has now for the speaker's configuration. Returns whether one is
    /// another. Those of a device that can't be used stay as they are.
    pub fn take_addresses(&mut self) -> bool {
        let Ok(device) = self.state else {
            return false;
        };
        let ipv4 = if self.settings.is_ipv4_fixed {
            self.settings.ipv4
        } else {
            self.ipv4
        };
        let is_other = device.address != self.address || ipv4 != self.settings.ipv4;
        self.address = device.address;
        self.settings.ipv4 = ipv4;
        is_other
    }

    fn note(&mut self, change: Change) {
        self.has_report = true;
        match change {
            Change::Down => self.was_down = true,
            Change::NoCarrier => self.lost_carrier = true,
            Change::Up(ipv4) => self.ipv4 = ipv4,
        }
    }
}

/// Takes what the launcher reports: lines `NAME down`, `NAME no-carrier`, `NAME up` and
/// `NAME up ADDRESS/LENGTH`. Other lines are passed over.
pub fn hear(devices: &mut [Tracked<'_>], heard: &[u8]) {
    let Ok(text) = str::from_utf8(heard) else {
        return;
    };
    for line in text.lines() {
        if let Some((name, change)) = report_of(line) {
            note_of(devices, name, change);
        }
    }
}

fn note_of(devices: &mut [Tracked<'_>], name: &str, change: Change) {
    for device in devices.iter_mut() {
        if device.settings.name == name {
            device.note(change);
        }
    }
}

fn report_of(line: &str) -> Option<(&str, Change)> {
    let mut words = line.split_ascii_whitespace();
    let name = words.next()?;
    match words.next()? {
        "down" => Some((name, Change::Down)),
        "no-carrier" => Some((name, Change::NoCarrier)),
        "up" => Some((name, Change::Up(network_of(words.next())))),
        _ => None,
    }
}

/// The IPv4 address that a word spells, with the length of its network's prefix.
pub fn network_of(word: Option<&str>) -> Option<Ipv4Network> {
    match parse_network(word?)? {
        (Addr::V4(octets), length) => Some((octets, length)),
        _ => None,
    }
}
