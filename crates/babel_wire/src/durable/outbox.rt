//! The datagrams of a turn, which wait until the snapshot is kept.

ghost use Rattle.std.specs.Prelude.{◌≡◌, ◌≤◌, ◌<◌, ◌++◌, [], ◌∷◌, length, map, vec_capacity, IfOk};
ghost use Rattle.babel_wire.specs.Turns.{max_sends};
ghost use Rattle.babel_wire.specs.Taken.{taken_of};

use crate::driving::MAX_SENDS;
use arrayvec::ArrayVec;
use babel_state::Target;
use babel_tlv::DATAGRAM_LEN;
use std::alloc::{AllocError, Global};
use std::marker::Model;

/// A datagram that was taken from the speaker, and its target.
#[derive(Drop)]
pub(crate) struct Datagram {
    pub(crate) target: Target,
    pub(crate) octets: ArrayVec<u8, DATAGRAM_LEN>,
}

/// The datagrams of a turn. Their room is made once: 64 datagrams of at most 1,024 octets.
#[derive(Drop)]
pub(crate) struct Outbox {
    datagrams: Vec<Datagram>,
}

impl Model for Outbox {
    ghost use Rattle.std.specs.Prelude.{◌≤◌, List, map};
    ghost use Rattle.std.specs.Vec.{vec_capacity};
    ghost use Rattle.babel_wire.specs.Turns.{max_sends};
    ghost use Rattle.babel_wire.specs.Taken.{Taken, taken_of};

    ghost Value = { List Taken };

    ghost view = { λ o. map taken_of o.datagrams.items };

    ghost invariant = { λ o. max_sends ≤ vec_capacity o.datagrams };
}

impl Outbox {
    /// No datagram waits.
    pub(crate) fn new(alloc: Global) -> Result<Outbox, AllocError>
        ensures { IfOk result (λ outbox. outbox ≡ []) }
    {
        let datagrams = Vec::with_capacity(alloc, MAX_SENDS)?;
        Ok(Outbox { datagrams })
    }

    /// Drops all datagrams.
    pub(crate) fn clear(&mut self)
        ensures { self.new ≡ [] }
    {
        self.datagrams.clear();
    }

    /// Adds a datagram, for which there is room.
    pub(crate) fn push(&mut self, target: Target, octets: ArrayVec<u8, DATAGRAM_LEN>)
        requires { length self.old < max_sends }
        ensures { self.new ≡ self.old ++ record { target = target; octets = octets.items } ∷ [] }
    {
        self.datagrams.push(Datagram { target, octets }).unwrap();
    }

    /// How many datagrams wait.
    pub(crate) fn count(&self) -> usize
        ensures { result ≡ length self.now }
    {
        self.datagrams.len()
    }

    /// The datagrams, in the order in which they were taken.
    pub(crate) fn datagrams(&self) -> &[Datagram]
        ensures { map taken_of result.now ≡ self.now }
    {
        &self.datagrams
    }
}
