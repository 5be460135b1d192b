//! The prefixes that were advertised, and why no route to them was stored.

use crate::controlling::retractions::{has_prefix, retracted_prefix};
use babel_message::{Content, Message, Placed, Reason};
use babel_state::{Note, Verdict};
use babel_value::{Peer, Prefix};
use std::alloc::{AllocError, Global};
use std::fmt::{self, Display, Write};

/// How many prefixes of how many neighbours are kept. One more takes the place of the oldest, but
/// one of V3 never that of another: each neighbour sends the speaker's own prefixes back.
const MAX_IGNORED: usize = 64;

/// Why an Update was not stored. The text is its verdict's code.
#[derive(Clone, Copy)]
enum Cause {
    /// I4, I5 and I8 to I10: it can't be used.
    Unusable(Reason),
    /// V3.
    OwnRouterId,
    /// V4.
    UnknownNeighbour,
    /// V5.
    TableFull,
}

impl Cause {
    fn of(verdict: &Verdict) -> Option<Cause> {
        match verdict {
            Verdict::Ignored(reason) if has_prefix(reason) => Some(Cause::Unusable(*reason)),
            Verdict::OwnRouterId => Some(Cause::OwnRouterId),
            Verdict::UnknownNeighbour => Some(Cause::UnknownNeighbour),
            Verdict::TableFull => Some(Cause::TableFull),
            _ => None,
        }
    }
}

impl fmt::Display for Cause {
    fn fmt<W: fmt::Write>(&self, f: &mut fmt::Formatter<W>) -> fmt::Result {
        f.write_str(match self {
            Cause::Unusable(reason) => return reason.fmt(f),
            Cause::OwnRouterId => "V3",
            Cause::UnknownNeighbour => "V4",
            Cause::TableFull => "V5",
        })
    }
}

/// Updates of a prefix that a neighbour sent, and that were not stored.
#[derive(Clone, Copy)]
struct Ignored {
    prefix: Prefix,
    peer: Peer,
    cause: Cause,
    count: u64,
    /// When the last one came, in centiseconds.
    last: u64,
}

/// A datagram of a neighbour.
#[derive(Clone, Copy)]
pub(crate) struct Received<'d> {
    /// When it came, in centiseconds.
    pub(crate) now: u64,
    pub(crate) peer: Peer,
    /// What its TLVs mean.
    pub(crate) placed: &'d [Placed],
    /// What they mean if each ignored Update is a retraction.
    pub(crate) retractions: &'d [Placed],
}

/// The Updates that were not stored, by prefix and neighbour: the latest 64, of which those of V3
/// go first.
#[derive(Drop)]
pub struct IgnoredUpdates {
    ignored: Vec<Ignored>,
}

impl IgnoredUpdates {
    /// None yet.
    pub fn new(alloc: Global) -> IgnoredUpdates {
        IgnoredUpdates {
            ignored: Vec::new(alloc),
        }
    }

    /// Takes what became of a datagram's TLVs.
    pub(crate) fn take(&mut self, received: &Received<'_>, notes: &[Note]) {
        for (index, note) in notes.iter().enumerate() {
            if let Some(cause) = Cause::of(&note.verdict) {
                if let Some(prefix) = prefix_at(received, index, cause) {
                    self.add(received, prefix, cause);
                }
            }
        }
    }

    fn add(&mut self, received: &Received<'_>, prefix: Prefix, cause: Cause) {
        let peer = received.peer;
        let mut count = 1u64;
        if let Some(index) = self.index_of(&peer, &prefix) {
            if index < self.ignored.len() {
                let known = self.ignored.remove(index);
                count = known.count.saturating_add(1);
            }
        }
        if self.ignored.len() >= MAX_IGNORED && !self.give_way(cause) {
            return;
        }
        // Without memory it isn't known later.
        let _ = self.ignored.push(Ignored {
            prefix,
            peer,
            cause,
            count,
            last: received.now,
        });
    }

    /// Makes room for one of this cause. Returns whether there is room.
    fn give_way(&mut self, cause: Cause) -> bool {
        let index = match (self.first_echo(), cause) {
            (Some(index), _) => index,
            (None, Cause::OwnRouterId) => return false,
            (None, _) => 0,
        };
        if index < self.ignored.len() {
            self.ignored.remove(index);
        }
        true
    }

    /// The index of the oldest of V3.
    fn first_echo(&self) -> Option<usize> {
        for (index, it) in self.ignored.iter().enumerate() {
            if let Cause::OwnRouterId = it.cause {
                return Some(index);
            }
        }
        None
    }

    fn index_of(&self, peer: &Peer, prefix: &Prefix) -> Option<usize> {
        for (index, it) in self.ignored.iter().enumerate() {
            if it.peer == *peer && it.prefix == *prefix {
                return Some(index);
            }
        }
        None
    }

    /// Adds a line for each neighbour whose Updates of the prefix were not stored.
    pub(crate) fn push_to(
        &self,
        prefix: &Prefix,
        now: u64,
        out: &mut String,
    ) -> Result<(), AllocError> {
        for it in &self.ignored {
            if it.prefix == *prefix {
                push_ignored(it, now, out)?;
            }
        }
        Ok(())
    }
}

fn push_ignored(it: &Ignored, now: u64, out: &mut String) -> Result<(), AllocError> {
    let prefix = it.prefix;
    let iface = it.peer.iface;
    let address = it.peer.addr;
    let count = it.count;
    let ago = now.saturating_sub(it.last);
    let cause = it.cause;
    writeln!(
        out,
        "{prefix} from {iface} {address} ignored {count} ago {ago} for {cause}"
    )
}

/// The prefix of the Update at the index.
fn prefix_at(received: &Received<'_>, index: usize, cause: Cause) -> Option<Prefix> {
    match cause {
        Cause::Unusable(_) => retracted_prefix(received.retractions.get(index)?),
        _ => updated_prefix(received.placed.get(index)?),
    }
}

/// The prefix of an Update.
fn updated_prefix(place: &Placed) -> Option<Prefix> {
    match place.content {
        Content::Message(Message::Update { prefix, .. }) => Some(prefix),
        _ => None,
    }
}

/// Whether an Update of the notes was not stored.
pub(crate) fn has_ignored(notes: &[Note]) -> bool {
    for note in notes {
        if Cause::of(&note.verdict).is_some() {
            return true;
        }
    }
    false
}
