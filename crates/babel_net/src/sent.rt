//! The datagrams that were sent in a network.

ghost use Rattle.std.specs.Prelude.{◌≡◌, ◌<◌, ◌≤◌, ◌+◌, ◌++◌, [], ◌∷◌, slice_get, length, vec_len, vec_capacity, IfOk, OnOk, OnErr, IfErr};
ghost use Rattle.babel_state.specs.Invariants.{IsWellFormed};
ghost use Rattle.babel_net.specs.Recording.{IsWithin, IsRecorded, datagram_in};
ghost use Rattle.babel_speaker.specs.Sending.{draft_at};

use crate::calls::send;
use crate::node_speakers::NodeSpeaker;
use arrayvec::ArrayVec;
use babel_machine::StepFault;
use babel_state::Target;
use babel_tlv::DATAGRAM_LEN;
use babel_value::Addr;
use std::alloc::{AllocError, Global};
use std::marker::Model;

/// A datagram that a node sent.
#[derive(Drop)]
pub struct Sent<'a> {
    node: usize,
    source: Addr,
    octets: &'a [u8],
}

impl<'a> Model for Sent<'a> {
    ghost use Rattle.babel_net.specs.Networks.{SentOctets};

    ghost Value = { SentOctets };

    ghost view = { λ d. record { node = d.node; source = d.source; octets = d.octets.now } };
}

impl<'a> Sent<'a> {
    /// The node that sent it.
    pub fn node(&self) -> usize
        ensures { result ≡ self.now.node }
    {
        self.node
    }

    /// The source address.
    pub fn source(&self) -> Addr
        ensures { result ≡ self.now.source }
    {
        self.source
    }

    /// The octets.
    pub fn octets(&self) -> &'a [u8]
        ensures { result.now ≡ self.now.octets }
    {
        self.octets
    }
}

/// How many octets a datagram has that names a few prefixes. It only says how much room
/// `Record::reserve` makes.
const USUAL_LEN: usize = 64;

/// A recorded datagram: its node, its source address, and where its octets are.
#[derive(Clone, Copy)]
pub(crate) struct Place {
    pub(crate) node: usize,
    pub(crate) source: Addr,
    pub(crate) start: usize,
    pub(crate) end: usize,
}

/// All datagrams that were sent, in order. Their octets are kept one after another, so that a short
/// one takes little memory.
#[derive(Drop)]
pub struct Record {
    places: Vec<Place>,
    octets: Vec<u8>,
    // The datagram that was sent last. It only keeps its room, so that none is made for each
    // datagram.
    last: ArrayVec<u8, DATAGRAM_LEN>,
}

impl Model for Record {
    ghost use Rattle.std.specs.Prelude.{List, All, map, length};
    ghost use Rattle.babel_net.specs.Networks.{SentOctets};
    ghost use Rattle.babel_net.specs.Recording.{IsWithin, datagram_in};

    ghost Value = { List SentOctets };

    ghost view = { λ r. map (datagram_in r.octets.items) r.places.items };

    ghost invariant = { λ r. All (IsWithin (length r.octets.items)) r.places.items };
}

impl Record {
    /// Nothing is recorded.
    pub fn new(alloc: Global) -> Record
        ensures { result ≡ [] }
    {
        Record {
            places: Vec::new(alloc),
            octets: Vec::new(alloc),
            last: ArrayVec::new(),
        }
    }

    /// Reserves the room for this many more datagrams of the usual length.
    pub fn reserve(&mut self, datagrams: usize) -> Result<(), AllocError>
        ensures { self.new ≡ self.old }
    {
        self.places.reserve(datagrams)?;
        self.octets.reserve(datagrams.saturating_mul(USUAL_LEN))
    }

    /// The datagram of the number, if there is one.
    pub fn get(&self, number: usize) -> Option<Sent<'_>>
        ensures { result ≡ slice_get self.now number }
    {
        match self.places.get(number) {
            Some(place) => Some(sent_at(&self.octets, place)),
            None => None,
        }
    }

    /// How many datagrams are recorded.
    pub fn count(&self) -> usize
        ensures { result ≡ length self.now }
    {
        self.places.len()
    }

    /// Records the next datagram of the node's speaker, if there is one. Returns where it goes.
    pub fn record_next(
        &mut self,
        speaker: &mut NodeSpeaker,
        node: usize,
        now: u64,
    ) -> Result<Option<Target>, StepFault>
        requires { IsWellFormed speaker.old }
        ensures state { OnOk result (speaker.new ≡ (draft_at now speaker.old).state) }
        ensures sent { OnOk result (IsRecorded node now speaker.old self.old self.new) }
        ensures target { IfOk result (λ target. target ≡ (draft_at now speaker.old).target) }
        ensures refused { IfErr result (λ fault. fault ≡ StepFault.Memory) }
        ensures err { OnErr result ((self.new ≡ self.old) × (speaker.new ≡ speaker.old)) }
    {
        if reserve(&mut self.places, &mut self.octets).is_err() {
            return Err(StepFault::Memory);
        }
        if let Some(way) = send(speaker, node, now, &mut self.last) {
            let sent = self.last.as_slice();
            push(&mut self.places, &mut self.octets, node, way.source, sent);
            return Ok(Some(way.target));
        }
        Ok(None)
    }
}

/// The datagram of a place.
fn sent_at<'a>(octets: &'a [u8], place: &Place) -> Sent<'a>
    requires { IsWithin (length octets.now) place.now }
    ensures { result ≡ datagram_in octets.now place.now }
{
    Sent {
        node: place.node,
        source: place.source,
        octets: &octets[place.start..place.end],
    }
}

/// Reserves the room for one more datagram.
fn reserve(places: &mut Vec<Place>, octets: &mut Vec<u8>) -> Result<(), AllocError>
    ensures place { OnOk result (vec_len places.new < vec_capacity places.new) }
    ensures octets { OnOk result (vec_len octets.new + DATAGRAM_LEN ≤ vec_capacity octets.new) }
    ensures places_kept { places.new.items ≡ places.old.items }
    ensures octets_kept { octets.new.items ≡ octets.old.items }
{
    places.reserve(1)?;
    octets.reserve(DATAGRAM_LEN)
}

/// Adds a datagram. There is room for it.
fn push(places: &mut Vec<Place>, octets: &mut Vec<u8>, node: usize, source: Addr, new: &[u8])
    requires place { vec_len places.old < vec_capacity places.old }
    requires octets { vec_len octets.old + length new.now ≤ vec_capacity octets.old }
    ensures places { places.new.items ≡ places.old.items ++ record { node = node; source = source; start = length octets.old.items; end = length octets.old.items + length new.now } ∷ [] }
    ensures octets { octets.new.items ≡ octets.old.items ++ new.now }
{
    let start = octets.len();
    if octets.extend_from_slice(new).is_err() {
        unreachable!();
    }
    places.push_reserved(Place {
        node,
        source,
        start,
        end: octets.len(),
    });
}
