//! Snapshots are tested, and read without an allocation.

ghost use Rattle.std.specs.Prelude.{◌≡◌, ◌↔◌, ◌+◌, ◌*◌, ◌^◌, ◌≤◌, ◌<◌, length, slice_get, Some, None, IsOk, IsNone, IfOk, IfErr};
ghost use Rattle.babel_state.specs.Restarts.{IsSnapshot};
ghost use Rattle.babel_snapshot.specs.Layout as layout;
ghost use Rattle.babel_snapshot.specs.Reading.{snapshot_in, count_in, record_at, record_fault, records_fault, restore_fault, is_in_order};

use crate::layout::head::{COUNT, RAISES, ROUTER_ID, SEQNO};
use crate::layout::{BEGINNING, HEAD_LEN, MAX_RECORDS, RECORD_LEN, ROUTER_ID_LEN};
use crate::records::{is_less, record_in, tested_record};
use babel_state::RestoreFault;
use babel_value::{Distance, Seqno, Source};
use byteorder::{BigEndian, ByteOrder};
use std::marker::Model;

/// The record with this index.
fn record_at(octets: &[u8], index: usize) -> &[u8]
    requires whole { layout.head_len + layout.record_len * (index + 1) ≤ length octets.now }
    requires short { length octets.now ≤ layout.max_snapshot_len }
    ensures octets { result.now ≡ record_at index octets.now }
    ensures len { length result.now ≡ layout.record_len }
{
    let from = HEAD_LEN + RECORD_LEN * index;
    &octets[from..from + RECORD_LEN]
}

/// Whether the record is the first one, or greater than the one before it.
#[tactic(auto, using(crate::proofs::SnapshotsRead::first_in_order, crate::proofs::SnapshotsRead::next_in_order))]
fn is_in_order(octets: &[u8], index: usize) -> bool
    requires whole { layout.head_len + layout.record_len * (index + 1) ≤ length octets.now }
    requires short { length octets.now ≤ layout.max_snapshot_len }
    ensures { result ≡ is_in_order index octets.now }
{
    if index == 0 {
        return true;
    }
    is_less(record_at(octets, index - 1), record_at(octets, index))
}

/// The fault of a record.
#[tactic(auto, unfolding(crate::specs::Reading::record_fault))]
fn record_fault(octets: &[u8], index: usize) -> Option<RestoreFault>
    requires whole { layout.head_len + layout.record_len * (index + 1) ≤ length octets.now }
    requires short { length octets.now ≤ layout.max_snapshot_len }
    ensures { result ≡ record_fault index octets.now }
{
    if record_in(record_at(octets, index)).is_none() {
        return Some(RestoreFault::Record(index));
    }
    if !is_in_order(octets, index) {
        return Some(RestoreFault::Order(index));
    }
    None
}

/// The first fault of the records.
#[tactic(auto, using(crate::proofs::SnapshotsRead::no_more, crate::proofs::SnapshotsRead::first_fault))]
fn records_fault(octets: &[u8], count: usize) -> Option<RestoreFault>
    requires whole { layout.head_len + layout.record_len * count ≡ length octets.now }
    requires few { count ≤ layout.most_records }
    ensures { result ≡ records_fault count octets.now }
{
    for index in 0..count {
        if let Some(fault) = record_fault(octets, index) {
            return Some(fault);
        }
    }
    None
}

/// The number of records.
fn count_in(octets: &[u8]) -> usize
    requires { layout.head_len ≤ length octets.now }
    ensures count { result ≡ count_in octets.now }
    ensures small { result < 2 ^ 16 }
{
    usize::from(BigEndian::read_u16(&octets[COUNT..]))
}

/// The first fault of the octets, as a snapshot of this router-id.
#[tactic(auto, unfolding(crate::specs::Reading::restore_fault))]
fn restore_fault(router: &[u8; ROUTER_ID_LEN], octets: &[u8]) -> Option<RestoreFault>
    ensures { result ≡ restore_fault router.now octets.now }
{
    if octets.len() < HEAD_LEN {
        return Some(RestoreFault::TooShort);
    }
    if octets[..ROUTER_ID] != BEGINNING[..] {
        return Some(RestoreFault::Beginning);
    }
    if octets[ROUTER_ID..SEQNO] != router[..] {
        return Some(RestoreFault::RouterId);
    }
    let count = count_in(octets);
    if count > MAX_RECORDS {
        return Some(RestoreFault::TooManyRecords);
    }
    if octets.len() != HEAD_LEN + RECORD_LEN * count {
        return Some(RestoreFault::Length);
    }
    records_fault(octets, count)
}

/// The octets of a snapshot that has no fault. A clause sees the snapshot that they encode.
#[derive(Drop)]
pub struct SavedState<'a> {
    octets: &'a [u8],
}

impl<'a> Model for SavedState<'a> {
    ghost use Rattle.babel_state.specs.Restarts.{Snapshot};
    ghost use Rattle.babel_snapshot.specs.Reading.{IsFaultless, snapshot_in};

    ghost Value = { Snapshot };

    ghost view = { λ s. snapshot_in s.octets.now };

    ghost invariant = { λ s. IsFaultless s.octets.now };
}

impl<'a> SavedState<'a> {
    /// The snapshot that the octets encode, for a configuration with this router-id.
    ///
    /// # Errors
    ///
    /// The first of K1 to K7 that the octets have.
    #[tactic(auto, using(crate::proofs::SnapshotsRead::faultless))]
    pub fn read(
        router: &[u8; ROUTER_ID_LEN],
        octets: &'a [u8],
    ) -> Result<SavedState<'a>, RestoreFault>
        ensures ok { IfOk result (λ saved. saved ≡ snapshot_in octets.now) }
        ensures valid { IsOk result ↔ IsNone (restore_fault router.now octets.now) }
        ensures refused { IfErr result (λ fault. restore_fault router.now octets.now ≡ Some fault) }
    {
        match restore_fault(router, octets) {
            Some(fault) => Err(fault),
            None => Ok(SavedState { octets }),
        }
    }

    /// The same of octets that are known to have no fault: they aren't tested.
    #[tactic(auto, using(crate::proofs::SnapshotsRead::faultless))]
    pub fn known(router: &[u8; ROUTER_ID_LEN], octets: &'a [u8]) -> SavedState<'a>
        requires faultless { IsNone (restore_fault router.now octets.now) }
        ensures { result ≡ snapshot_in octets.now }
    {
        // The router-id is in the contract alone.
        let _ = router;
        SavedState { octets }
    }

    /// The own seqno.
    #[tactic(auto, unfolding(crate::specs::Reading::snapshot_in))]
    pub fn seqno(&self) -> Seqno
        ensures { result ≡ self.now.seqno }
    {
        Seqno(BigEndian::read_u16(&self.octets[SEQNO..]))
    }

    /// How often the own seqno grew.
    #[tactic(auto, unfolding(crate::specs::Reading::snapshot_in))]
    pub fn raises(&self) -> u64
        ensures { result ≡ self.now.raises }
    {
        BigEndian::read_u64(&self.octets[RAISES..])
    }

    /// The number of sources. They are in order and find room in a source table, and all numbers
    /// fit.
    #[tactic(auto, using(crate::proofs::SnapshotsRead::sources_len, crate::proofs::SnapshotsRead::read_snapshot), unfolding(crate::specs::Reading::snapshot_in))]
    pub fn len(&self) -> usize
        ensures len { result ≡ length self.now.sources }
        ensures snapshot { IsSnapshot self.now }
    {
        let (_seqno, _raises) = (self.seqno(), self.raises());
        count_in(self.octets)
    }

    /// The source with this index, and its feasibility distance.
    #[tactic(auto, using(crate::proofs::SnapshotsRead::sources_at, crate::proofs::SnapshotsRead::none_past, crate::proofs::SnapshotsRead::record_is_there), unfolding(crate::specs::Reading::snapshot_in))]
    pub fn source(&self, index: usize) -> Option<(Source, Distance)>
        ensures { result ≡ slice_get self.now.sources index }
    {
        if index >= count_in(self.octets) {
            return None;
        }
        tested_record(record_at(self.octets, index))
    }
}
