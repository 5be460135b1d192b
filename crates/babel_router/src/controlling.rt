//! The control socket of a speaker that runs, and what it shows.
//!
//! - `tables`: the speaker's neighbours, prefixes and routes.
//! - `reasons`: why each route of a prefix is used or not, and `requests` which newer seqnos are
//!   requested.
//! - `log`: what becomes of each datagram.
//! - `ignored`: the Updates that were not stored, whose prefixes `retractions` reads.

mod ignored;
mod log;
mod reasons;
mod requests;
mod retractions;
mod tables;

use crate::counting::Counts;
use babel_control::{
    ControlPlace, ControlSocket, DeviceAddresses, DeviceView, Keeping, LogSource, Logging,
    TurnCounts, View, Wish,
};
use babel_speaker::Speaker;
pub use ignored::IgnoredUpdates;
pub use log::LiveLog;
use mio::Registry;
use std::alloc::Global;
use std::fs::{self, Files};
use std::io::{self, Read};
use std::net::Net;
pub use tables::SpeakerTables;

/// Where the system has the name of this machine.
const HOST: &str = "/proc/sys/kernel/hostname";

/// The most octets of it.
const MAX_HOST_LEN: u64 = 256;

/// The control socket of a speaker that runs.
#[derive(Drop)]
pub(crate) struct Control {
    socket: ControlSocket,
    /// The name of this machine, and a line feed.
    host: String,
    /// What the clients are sent.
    pub(crate) log: LiveLog,
}

/// What a turn gives the clients.
#[derive(Clone, Copy)]
pub(crate) struct Service<'s> {
    /// The devices, by the numbers of the interfaces.
    pub(crate) devices: &'s [DeviceView<'s>],
    /// The moment, in centiseconds.
    pub(crate) now: u64,
    /// The sources that were ready: bit 0 is the socket, and bit `n + 1` the client of number `n`.
    pub(crate) ready: u64,
    /// What was counted so far.
    pub(crate) counts: TurnCounts,
    /// Whether the snapshot is kept.
    pub(crate) keeping: Keeping,
}

impl Control {
    /// Opens the control socket. It is watched with `MAX_CLIENTS + 1` tokens from this one on.
    ///
    /// # Errors
    ///
    /// The socket can't be made, the name of the machine can't be read, or an allocation failed.
    pub(crate) fn open<R: Files + Net>(
        alloc: Global,
        system: &R,
        place: ControlPlace<'_>,
        registry: &Registry,
        token: usize,
    ) -> io::Result<Control> {
        let host = read_host(alloc, system)?;
        let socket = ControlSocket::open(alloc, system, place, registry, token)?;
        Ok(Control {
            socket,
            host,
            log: LiveLog::new(alloc),
        })
    }

    /// Whether there is no client, and none wants to be one. So nobody has to be served.
    pub(crate) fn is_idle(&self, ready: u64) -> bool {
        ready == 0 && !self.socket.has_clients()
    }

    /// Gives the lines of the log to the clients that are sent it, serves all of them once, and
    /// returns what one wants of the speaker. Nothing changes in the speaker.
    pub(crate) fn serve(
        &mut self,
        speaker: &Speaker,
        registry: &Registry,
        service: Service<'_>,
    ) -> Wish {
        self.socket.push_log(self.log.lines());
        self.log.clear();
        let wish = self.serve_tables(speaker, registry, service);
        let logging = match self.socket.has_log_reader() {
            true => Logging::On,
            false => Logging::Off,
        };
        self.log.set_logging(logging);
        wish
    }

    fn serve_tables(
        &mut self,
        speaker: &Speaker,
        registry: &Registry,
        service: Service<'_>,
    ) -> Wish {
        let tables = SpeakerTables {
            speaker,
            ignored: &self.log.ignored,
            now: service.now,
        };
        let view = View {
            tables: &tables,
            router: speaker.router_id(),
            now: service.now,
            devices: service.devices,
            host: self.host.trim_end(),
            counts: service.counts,
            keeping: service.keeping,
            log: LogSource::Speaker,
        };
        self.socket.serve(service.ready, registry, &view)
    }
}

fn read_host<F: Files>(alloc: Global, files: &F) -> io::Result<String> {
    io::read_to_string(alloc, fs::open(files, HOST)?.take(MAX_HOST_LEN))
}

/// Takes the socket's file away, if there is a socket and it is one of a file.
pub(crate) fn remove_socket<F: Files>(files: &F, place: Option<ControlPlace<'_>>) {
    if let Some(ControlPlace::Path(path)) = place {
        // If it stays, the next run replaces it.
        let _ = fs::remove_file(files, path);
    }
}

/// What was counted, as the control socket shows it.
pub(crate) fn counts_of(counts: Counts) -> TurnCounts {
    let report = counts.report.report;
    TurnCounts {
        turns: counts.turns,
        received: report.received,
        sent: report.sent,
        refused: report.refused,
        faults: report.faults,
    }
}

/// A device that can be used, as the control socket shows it.
pub(crate) fn device_view<'v>(
    name: &'v str,
    ipv6: Option<[u8; 16]>,
    network: Option<([u8; 4], u8)>,
) -> DeviceView<'v> {
    let ipv4 = match network {
        Some(network) => {
            let address = network.0;
            Some(address)
        }
        None => None,
    };
    DeviceView {
        name,
        addresses: Some(DeviceAddresses { ipv6, ipv4 }),
    }
}
