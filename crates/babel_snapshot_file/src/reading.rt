//! The octets of a snapshot's file.

ghost use Rattle.std.specs.Prelude.{◌≡◌, ◌≢◌, ◌<◌, ◌≤◌, length, IsErr, IfOk, IfErr, IfSome};
ghost use Rattle.babel_snapshot.specs.Layout.{max_snapshot_len};
ghost use Rattle.babel_snapshot_file.specs.declared.errors.SnapshotFileFault.TheVariants.{Unwritable};

use crate::SnapshotFileFault;
use babel_snapshot::{HEAD_LEN, MAX_RECORDS, RECORD_LEN};
use std::alloc::Global;
use std::io::Read;

/// The most octets that a snapshot may have: 15,384.
pub const MAX_SNAPSHOT_LEN: usize = HEAD_LEN + RECORD_LEN * MAX_RECORDS;

/// Reads the octets of a snapshot's file, of which there may be `MAX_SNAPSHOT_LEN`.
///
/// # Errors
///
/// K8 if reading fails or the file has more octets, L8 if an allocation fails.
pub fn read_snapshot<R: Read + Drop>(alloc: Global, input: R) -> Result<Vec<u8>, SnapshotFileFault>
    ensures whole { IfSome (R.remaining input) (λ file. IfOk result (λ octets. octets.items ≡ file)) }
    ensures bounded { IfOk result (λ octets. length octets.items ≤ max_snapshot_len) }
    ensures too_long { IfSome (R.remaining input) (λ file. max_snapshot_len < length file → IsErr result) }
    ensures reads { IfErr result (λ fault. fault ≢ Unwritable) }
{
    let mut octets = Vec::new(alloc);
    let mut front = input.take(MAX_SNAPSHOT_LEN as u64 + 1);
    match front.read_to_end(&mut octets) {
        Ok(_) if octets.len() <= MAX_SNAPSHOT_LEN => Ok(octets),
        Ok(_) => Err(SnapshotFileFault::Unreadable),
        Err(error) => Err(SnapshotFileFault::of_reading(error)),
    }
}
