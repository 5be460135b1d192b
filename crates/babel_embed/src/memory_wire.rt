//! A wire in memory: what is sent is in a list until it is passed to the other end.

ghost use Rattle.std.specs.Prelude.{◌≡◌, ◌≤◌, ◌^◌, IsFalse};

use raibenku::{Addr, Arrival, Target, Wire, WireFault};
use std::alloc::{AllocError, Global};

/// How many centiseconds pass in a turn.
const TURN: u64 = 5;

/// More failures than in any run.
const MAX_FAULTS: u64 = 1 << 62;

/// One end of the wire.
#[derive(Drop)]
pub(crate) struct MemoryWire {
    alloc: Global,
    moment: u64,
    faults: u64,
    /// The address of the other end.
    peer: Addr,
    sent: Vec<Vec<u8>>,
    came: Vec<Vec<u8>>,
}

impl MemoryWire {
    /// The end of a wire whose other end has this address.
    pub(crate) fn new(alloc: Global, peer: Addr) -> MemoryWire
        ensures { result.faults ≡ 0 }
    {
        MemoryWire {
            alloc,
            moment: 0,
            faults: 0,
            peer,
            sent: Vec::new(alloc),
            came: Vec::new(alloc),
        }
    }

    /// Whether it has failed as often as `drive` can count.
    pub(crate) fn has_failed(&self) -> bool
        ensures { IsFalse result → self.now.faults ≤ 2 ^ 62 }
    {
        self.faults > MAX_FAULTS
    }

    /// Passes all that was sent to the other end. The last one of each turn comes first.
    pub(crate) fn pass_to(&mut self, other: &mut MemoryWire) -> Result<(), AllocError>
        ensures own { self.new.faults ≡ self.old.faults }
        ensures other { other.new.faults ≡ other.old.faults }
    {
        pass(&mut self.sent, &mut other.came)
    }
}

/// Moves all of the datagrams, the last one first.
fn pass(sent: &mut Vec<Vec<u8>>, came: &mut Vec<Vec<u8>>) -> Result<(), AllocError> {
    for _ in 0..sent.len() {
        if let Some(datagram) = sent.pop() {
            came.push(datagram)?;
        }
    }
    Ok(())
}

impl Wire for MemoryWire {
    ghost fault_count = { λ w. w.faults };

    fn now(&mut self) -> u64 {
        self.moment = self.moment.saturating_add(TURN);
        self.moment
    }

    fn recv(&mut self, buf: &mut [u8]) -> Result<Option<Arrival>, WireFault> {
        let Some(datagram) = self.came.pop() else {
            return Ok(None);
        };
        let len = datagram.len();
        if len > buf.len() {
            self.faults += 1;
            return Err(WireFault);
        }
        buf[..len].copy_from_slice(datagram.as_slice());
        Ok(Some(Arrival {
            iface: 0,
            source: self.peer,
            len,
        }))
    }

    fn send(&mut self, _target: &Target, octets: &[u8]) -> Result<(), WireFault> {
        let mut copy = Vec::new(self.alloc);
        if copy.extend_from_slice(octets).is_err() || self.sent.push(copy).is_err() {
            self.faults += 1;
            return Err(WireFault);
        }
        Ok(())
    }

    fn faults(&self) -> u64 {
        self.faults
    }
}
