//! The octets of a source table.

ghost use Rattle.std.specs.Prelude.{◌≡◌, ◌^◌, ◌<◌, ◌∷◌, ◌++◌, map, length, IfOk, OnOk};
ghost use Rattle.std.specs.List.{All};
ghost use Rattle.byteorder.specs.Endian.{big_bytes};
ghost use Rattle.babel_state.specs.Restarts.{kept_source};
ghost use Rattle.babel_snapshot.specs.Layout as layout;
ghost use Rattle.babel_snapshot.specs.Octets.{addr_octets, source_octets, record_octets, records_octets, head_octets, snapshot_octets};
ghost use Rattle.babel_snapshot.specs.SnapshotLaws.{addr_len, wanted_len, IsSource, IsRecord};

use crate::layout::source_record::{ADDR, IPV4, IPV6, LENGTH, SEQNO};
use crate::layout::{BEGINNING, HEAD_LEN, RECORD_LEN, ROUTER_ID_LEN};
use babel_sources::Sources;
use babel_value::{Addr, Distance, Memory, RouterId, Seqno, Source};
use byteorder::{BigEndian, ByteOrder};
use std::alloc::{AllocError, Global};

/// The two octets of a number.
fn two(number: u16) -> [u8; 2]
    ensures octets { result ≡ big_bytes 2 number }
    ensures small { number < 2 ^ 16 }
{
    let mut octets = [0; 2];
    BigEndian::write_u16(&mut octets, number);
    octets
}

/// The eight octets of a number.
fn eight(number: u64) -> [u8; 8]
    ensures { result ≡ big_bytes 8 number }
{
    let mut octets = [0; 8];
    BigEndian::write_u64(&mut octets, number);
    octets
}

/// The family and the address.
fn addr_octets(addr: &Addr) -> [u8; LENGTH]
    ensures octets { result ≡ addr_octets addr.now }
    ensures len { addr_len addr.now ≡ wanted_len addr.now }
{
    match addr {
        Addr::V4([a, b, c, d]) => [IPV4, *a, *b, *c, *d, 0, 0, 0, 0, 0, 0, 0, 0, 0, 0, 0, 0],
        Addr::V6(addr) => {
            let mut octets = [IPV6; LENGTH];
            octets[ADDR..].copy_from_slice(addr);
            octets
        }
    }
}

/// The prefix length and the router-id.
fn length_and_router(length: u8, router: &[u8; ROUTER_ID_LEN]) -> [u8; SEQNO - LENGTH]
    ensures { result ≡ length ∷ router.now }
{
    let mut octets = [length; SEQNO - LENGTH];
    octets[1..].copy_from_slice(router);
    octets
}

/// The octets that name a source.
fn source_octets(source: &Source) -> [u8; SEQNO]
    ensures octets { result ≡ source_octets source.now }
    ensures whole { IsSource source.now }
{
    let addr = source.prefix.addr();
    let length = source.prefix.length();
    let router = source.router.octets();
    let mut octets = [0; SEQNO];
    octets[..LENGTH].copy_from_slice(&addr_octets(&addr));
    octets[LENGTH..].copy_from_slice(&length_and_router(length, &router));
    octets
}

/// The seqno and the metric.
fn distance_octets(distance: Distance) -> [u8; RECORD_LEN - SEQNO]
    ensures octets { result ≡ big_bytes 2 distance.seqno ++ big_bytes 2 distance.metric }
    ensures small { distance.seqno < 2 ^ 16 }
{
    let [s0, s1] = two(distance.seqno.0);
    let [m0, m1] = two(distance.metric.0);
    [s0, s1, m0, m1]
}

/// A record.
fn record_octets(source: &Source, distance: Distance) -> [u8; RECORD_LEN]
    ensures octets { result ≡ record_octets (source.now, distance) }
    ensures whole { IsRecord (source.now, distance) }
{
    let mut octets = [0; RECORD_LEN];
    octets[..SEQNO].copy_from_slice(&source_octets(source));
    octets[SEQNO..].copy_from_slice(&distance_octets(distance));
    octets
}

/// Writes a record.
fn write_record(out: &mut Vec<u8>, source: &Source, distance: Distance) -> Result<(), AllocError>
    ensures octets { OnOk result (out.new.items ≡ out.old.items ++ record_octets (source.now, distance)) }
    ensures whole { OnOk result (IsRecord (source.now, distance)) }
{
    out.extend_from_slice(&record_octets(source, distance))
}

/// Writes a record for each source.
#[tactic(auto)]
fn write_records(out: &mut Vec<u8>, sources: &Sources) -> Result<(), AllocError>
    ensures octets { OnOk result (out.new.items ≡ out.old.items ++ records_octets (map kept_source sources.now)) }
    ensures whole { OnOk result (All IsRecord (map kept_source sources.now)) }
{
    for place in 0..sources.len() {
        let Some(entry) = sources.at(place) else {
            continue;
        };
        write_record(out, &entry.0, entry.1)?;
    }
    Ok(())
}

/// Writes the head before so many records.
fn write_head(
    out: &mut Vec<u8>,
    router: RouterId,
    seqno: Seqno,
    raises: u64,
    count: u16,
) -> Result<(), AllocError>
    ensures octets { OnOk result (out.new.items ≡ out.old.items ++ head_octets router seqno raises count) }
    ensures router { OnOk result (length router ≡ layout.router_id_len) }
{
    let octets = router.octets();
    out.extend_from_slice(&BEGINNING)?;
    out.extend_from_slice(&octets)?;
    out.extend_from_slice(&two(seqno.0))?;
    out.extend_from_slice(&eight(raises))?;
    out.extend_from_slice(&two(count))
}

/// The snapshot of a speaker with this router-id, own seqno, count of raises and source table.
/// There is one allocation, of the snapshot's length.
#[tactic(auto, unfolding(crate::specs::Octets::snapshot_octets))]
pub fn save(
    alloc: Global,
    router: RouterId,
    seqno: Seqno,
    raises: u64,
    sources: &Sources,
) -> Result<Vec<u8>, Memory>
    ensures ok { IfOk result (λ octets. octets.items ≡ snapshot_octets (record { router = router; seqno = seqno; raises = raises; sources = map kept_source sources.now })) }
    ensures router { IfOk result (λ octets. length router ≡ layout.router_id_len) }
    ensures whole { IfOk result (λ octets. All IsRecord (map kept_source sources.now)) }
{
    let count = sources.len();
    let mut out = Vec::with_capacity(alloc, HEAD_LEN + RECORD_LEN * count)?;
    write_head(&mut out, router, seqno, raises, count as u16)?;
    write_records(&mut out, sources)?;
    Ok(out)
}
