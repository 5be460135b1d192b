//! A wire with the file in which the speaker's snapshot is kept, and the speaker that begins with
//! it.

use crate::RunFault;
use babel_control::Keeping;
use babel_snapshot_file::{Kept, LockFile, SnapshotFileFault, SnapshotStore};
use babel_speaker::Speaker;
use babel_state::{Config, ConfigFault, RestoreFault, Target};
use babel_wire::{Arrival, DurableReport, DurableWire, StoreFault, Wire, WireFault};
use raibenku::SpeakFault;
use std::alloc::Global;
use std::fs::Files;

/// The moment at which a speaker is restored: the first one.
const MOMENT: u64 = 0;

/// A wire, and the file in which the snapshot is kept. Without a file nothing is kept over a
/// restart.
#[derive(Drop)]
pub(crate) struct KeptWire<'a, W: Wire + Drop, F: Files> {
    /// The wire.
    pub(crate) wire: W,
    /// The file, locked against other processes.
    pub(crate) store: Option<SnapshotStore<'a, F>>,
}

impl<W: Wire + Drop, F: Files> KeptWire<'_, W, F> {
    /// Whether the snapshot is kept after a turn.
    pub(crate) fn keeping(&self, turn: DurableReport) -> Keeping {
        match self.store {
            None => Keeping::Never,
            Some(_) if turn.failed_keeps > 0 => Keeping::Failed,
            Some(_) => Keeping::Kept,
        }
    }
}

impl<W: Wire + Drop, F: Files> Wire for KeptWire<'_, W, F> {
    ghost fault_count = { λ w. W.fault_count w.wire };

    fn now(&mut self) -> u64 {
        self.wire.now()
    }

    fn recv(&mut self, buf: &mut [u8]) -> Result<Option<Arrival>, WireFault> {
        self.wire.recv(buf)
    }

    fn send(&mut self, target: &Target, octets: &[u8]) -> Result<(), WireFault> {
        self.wire.send(target, octets)
    }

    fn faults(&self) -> u64 {
        self.wire.faults()
    }
}

impl<W: Wire + Drop, F: Files> DurableWire for KeptWire<'_, W, F>
where
    F::File: LockFile,
{
    fn keep(&mut self, octets: &[u8]) -> Result<(), StoreFault> {
        match &self.store {
            Some(store) if store.keep(octets).is_err() => Err(StoreFault),
            _ => Ok(()),
        }
    }
}

/// Why a speaker can't begin with the file in which it is kept.
#[derive(Clone, Copy)]
pub(crate) enum StartFault {
    /// K8, K9, K10 and L8: the file can't be read, is there, or can't be locked.
    SnapshotFile(SnapshotFileFault),
    /// C1 to C7: no speaker can be made of the configuration.
    Config(ConfigFault),
    /// K1 to K7: no speaker can be restored from the snapshot.
    Restore(RestoreFault),
}

impl From<StartFault> for SpeakFault {
    fn from(fault: StartFault) -> SpeakFault {
        match fault {
            StartFault::SnapshotFile(fault) => SpeakFault::SnapshotFile(fault),
            StartFault::Config(fault) => SpeakFault::Config(fault),
            StartFault::Restore(fault) => SpeakFault::Restore(fault),
        }
    }
}

impl From<StartFault> for RunFault {
    fn from(fault: StartFault) -> RunFault {
        match fault {
            StartFault::SnapshotFile(fault) => RunFault::SnapshotFile(fault),
            StartFault::Config(fault) => RunFault::Config(fault),
            StartFault::Restore(fault) => RunFault::Restore(fault),
        }
    }
}

/// Locks the file, if there is to be one, and restores a speaker of the configuration from it.
/// Without a file, or with a new one, the speaker is a new one too.
///
/// # Errors
///
/// K10, K8 or K9, then C1 to C6, K1 to K7 and C7, by the first cause in this order.
pub(crate) fn open_kept<'a, F: Files>(
    alloc: Global,
    files: &'a F,
    config: Config,
    kept: Option<Kept<'a>>,
) -> Result<(Option<SnapshotStore<'a, F>>, Speaker), StartFault>
where
    F::File: LockFile,
{
    let (store, octets) = match kept {
        Some(kept) => match SnapshotStore::open(alloc, files, kept) {
            Ok((store, octets)) => (Some(store), octets),
            Err(fault) => return Err(StartFault::SnapshotFile(fault)),
        },
        None => (None, None),
    };
    match made(alloc, config, octets) {
        Ok(speaker) => Ok((store, speaker)),
        Err(fault) => Err(fault),
    }
}

/// A speaker of the configuration, restored from the octets if there are any.
fn made(alloc: Global, config: Config, octets: Option<Vec<u8>>) -> Result<Speaker, StartFault> {
    match octets {
        Some(octets) => match Speaker::restore(alloc, config, MOMENT, octets.as_slice()) {
            Ok(speaker) => Ok(speaker),
            Err(RestoreFault::Config(fault)) => Err(StartFault::Config(fault)),
            Err(fault) => Err(StartFault::Restore(fault)),
        },
        None => match Speaker::new(alloc, config) {
            Ok(speaker) => Ok(speaker),
            Err(fault) => Err(StartFault::Config(fault)),
        },
    }
}
