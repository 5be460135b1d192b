//! What a speaker keeps next to its state, so that calls are quick and their changes are counted.

ghost use Rattle.std.specs.Prelude.{◌≡◌, IfOk, IsFalse};

use crate::tables::Scratch;
use arrayvec::ArrayVec;
use babel_choice::Cursor;
use babel_link::MAX_NEIGHBOURS;
use babel_message::Placed;
use babel_route::Trail;
use babel_value::{Memory, Peer};
use std::alloc::Global;
use std::mem;

/// The most TLVs for which a kept list has room: 8 KiB.
const MOST_KEPT: usize = 128;

/// Where the last call ended that announced or withdrew a prefix, and before the first one where
/// such a prefix came back from a neighbour. As a `Cursor`, it only matters for speed.
#[derive(Drop)]
pub struct OwnCursor {
    /// An index in the announced prefixes.
    pub announced: usize,
    /// Where it was in the other tables.
    pub tables: Cursor,
}

impl OwnCursor {
    /// A cursor that is nowhere yet.
    fn new() -> OwnCursor {
        OwnCursor {
            announced: 0,
            tables: Cursor::new(),
        }
    }

    /// The speaker's own route came back from a neighbour. Updates mostly are in the order of their
    /// prefixes, so the one before it left its cursor near this prefix. Later ones may find the
    /// table of routes full: then no route is selected again, and only their index in that table is
    /// near.
    pub fn hear(&mut self, cursor: &Cursor) {
        self.tables.entry = cursor.entry;
        if self.tables.selection == usize::MAX {
            self.tables.selection = cursor.selection;
        }
    }
}

/// What speeds calls up, and what they note of their changes. The state that a call leaves doesn't
/// depend on it.
#[derive(Drop)]
pub struct Hints {
    /// The speaker is settled: each of its selections is known to be current.
    pub settled: bool,
    /// The selected routes may be reported otherwise than before.
    pub changed: bool,
    /// A feasibility distance of a source was lowered.
    pub lowered: bool,
    /// Room for a list of prefixes.
    pub scratch: Scratch,
    /// The neighbours that the last tick flushed: room that a tick need not make.
    pub gone: ArrayVec<Peer, MAX_NEIGHBOURS>,
    /// The order in which neighbours send their updates.
    pub trail: Trail,
    /// What the last datagram meant. The list is kept, so that the next datagram mostly allocates
    /// none.
    pub placed: Vec<Placed>,
    /// Where the searches of a received update begin.
    pub cursor: Cursor,
    /// Where those of the next item begin that is sent. Items mostly are in the order of their
    /// prefixes, and a speaker sends the same ones in turns.
    pub sending: Cursor,
    /// Where those begin of the next prefix that is announced or withdrawn.
    pub own: OwnCursor,
}

impl Hints {
    /// Those of a new speaker: it isn't known to be settled.
    pub fn new(alloc: Global) -> Result<Hints, Memory>
        ensures unsettled { IfOk result (λ hints. IsFalse hints.settled) }
    {
        let scratch = Scratch::new(alloc)?;
        Ok(Hints {
            settled: false,
            changed: false,
            lowered: false,
            scratch,
            gone: ArrayVec::new(),
            trail: Trail::new(),
            placed: Vec::new(alloc),
            cursor: Cursor::new(),
            sending: Cursor::new(),
            own: OwnCursor::new(),
        })
    }

    /// The kept list, in whose place is an empty one. It takes no memory.
    pub fn take_list(&mut self, alloc: Global) -> Vec<Placed>
        ensures settled { self.new.settled ≡ self.old.settled }
        ensures changed { self.new.changed ≡ self.old.changed }
    {
        mem::replace(&mut self.placed, Vec::new(alloc))
    }

    /// Keeps the list for the next datagram, unless it has room for more than `MOST_KEPT` TLVs.
    pub fn keep_list(&mut self, placed: Vec<Placed>)
        ensures settled { self.new.settled ≡ self.old.settled }
        ensures changed { self.new.changed ≡ self.old.changed }
    {
        if placed.capacity() <= MOST_KEPT {
            self.placed = placed;
        }
    }
}
