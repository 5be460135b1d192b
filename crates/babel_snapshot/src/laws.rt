//! Laws of snapshots and their octets, each the contract of a function that does nothing.

ghost use Rattle.babel_snapshot.specs.SnapshotLaws.{OctetsAreInOrder, WrittenIsRead, ReadIsWritten, OctetsAreExact};

/// The octets of a snapshot have no fault, and encode the snapshot.
pub fn written_is_read()
    ensures { WrittenIsRead }
{}

/// Octets without a fault are the octets of the snapshot that they encode.
pub fn read_is_written()
    ensures { ReadIsWritten }
{}

/// Two snapshots with the same octets are equal, and records are in the order of their sources.
pub fn octets_are_exact()
    ensures exact { OctetsAreExact }
    ensures order { OctetsAreInOrder }
{}
