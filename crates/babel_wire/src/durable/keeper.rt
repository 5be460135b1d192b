//! Which snapshot was kept last.

ghost use Rattle.std.specs.Prelude.{◌≡◌, ◌↔◌, None, IsTrue};
ghost use Rattle.babel_wire.specs.DurableRuns.{IsKept, IsKeeping};

use crate::{DurableWire, StoreFault};
use babel_speaker::Speaker;
use std::marker::Model;

/// Which snapshot a process kept last, from one call of [`crate::drive_durable`] to the next.
///
/// A new one knows of none, so that the first turn of a process keeps before it sends. A file that
/// was read may be one whose folder wasn't synced.
#[derive(Drop)]
pub struct Keeper {
    /// The count of the snapshot that was kept last. `None`: none was, or the last keep failed.
    version: Option<u64>,
}

impl Model for Keeper {
    ghost use Rattle.std.specs.Prelude.{ℕ, Option};

    ghost Value = { Option ℕ };

    ghost view = { λ k. k.version };
}

impl Keeper {
    /// Nothing is known to be kept.
    pub fn new() -> Keeper
        ensures { result ≡ None }
    {
        Keeper { version: None }
    }

    /// Whether the snapshot with this count is known to be the one that was kept last. At its
    /// greatest value a count stays the same whatever changes, so then nothing is known.
    fn has_kept(&self, version: u64) -> bool
        ensures { IsTrue result ↔ IsKept self.now version }
    {
        self.version == Some(version) && version < u64::MAX
    }

    /// Keeps the speaker's snapshot if it isn't the one that was kept last, and returns whether it
    /// is kept.
    pub(crate) fn keep<W: DurableWire>(&mut self, speaker: &Speaker, wire: &mut W) -> bool
        ensures kept { IsKeeping speaker.now self.old (W.Wire.history wire.old) self.new (W.Wire.history wire.new) result }
        ensures faults { W.Wire.fault_count wire.new ≡ W.Wire.fault_count wire.old }
    {
        let version = speaker.snapshot_version();
        if self.has_kept(version) {
            return true;
        }
        let Ok(octets) = speaker.save() else {
            return false;
        };
        match wire.keep(&octets) {
            Ok(()) => {
                self.version = Some(version);
                true
            }
            Err(StoreFault) => {
                // Nobody knows what is on disk.
                self.version = None;
                false
            }
        }
    }
}
