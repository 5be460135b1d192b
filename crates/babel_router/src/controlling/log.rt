//! The log of a running speaker: the lines of `babel replay`, as they happen.

use crate::controlling::IgnoredUpdates;
use crate::controlling::ignored::{Received, has_ignored};
use crate::controlling::reasons::push_line;
use crate::controlling::retractions::{has_readable, with_retractions};
use crate::limits::MAX_PREFIXES;
use babel_choice::Selection;
use babel_control::Logging;
use babel_message::Placed;
use babel_replay::{
    Choice, count_messages, push_tlv, set_moment, set_out, set_refused, set_select,
};
use babel_speaker::{Decoded, Speaker};
use babel_state::{Note, RecvFault, Target};
use babel_value::{Line, Peer, Prefix};
use std::alloc::{AllocError, Global};
use std::cmp::Ordering;

/// The most octets of the log that wait to be taken: as many as wait for a client.
const MAX_LOG: usize = 1 << 20;

/// A prefix, and the selected route that was written last.
#[derive(Clone, Copy)]
struct Written {
    prefix: Prefix,
    choice: Choice,
}

/// The lines of the log that nobody took yet. They are written only if somebody is sent the log.
#[derive(Drop)]
pub struct LiveLog {
    alloc: Global,
    logging: Logging,
    text: String,
    /// Whether a line is missing, since there was no room for it.
    is_broken: bool,
    line: Line,
    /// The selected routes that were written last, ascending by prefix.
    written: Vec<Written>,
    /// The count of the speaker's routes when they were looked at last.
    version: Option<u64>,
    /// The Updates that were not stored.
    pub ignored: IgnoredUpdates,
}

impl LiveLog {
    /// A log that nobody is sent.
    pub fn new(alloc: Global) -> LiveLog {
        LiveLog {
            alloc,
            logging: Logging::Off,
            text: String::new(alloc),
            is_broken: false,
            line: Line::new(),
            written: Vec::new(alloc),
            version: None,
            ignored: IgnoredUpdates::new(alloc),
        }
    }

    /// Whether somebody is sent the log from now on. To whom it is new the selected routes come
    /// first.
    pub fn set_logging(&mut self, logging: Logging) {
        if self.logging != logging {
            self.written.clear();
            self.version = None;
        }
        self.logging = logging;
    }

    /// The lines since they were taken last. `None`: one is missing.
    pub fn lines(&self) -> Option<&str> {
        match self.is_broken {
            true => None,
            false => Some(self.text.as_str()),
        }
    }

    /// The lines were taken.
    pub fn clear(&mut self) {
        self.text.clear();
        self.is_broken = false;
    }

    /// The speaker was made again, and counts the changes of its routes from the beginning.
    pub fn note_restart(&mut self) {
        self.version = None;
    }

    /// What became of a datagram from this neighbour.
    pub fn take_received(
        &mut self,
        now: u64,
        peer: Peer,
        octets: &[u8],
        outcome: &Result<Vec<Note>, RecvFault>,
    ) {
        match outcome {
            Ok(notes) => {
                if self.logging == Logging::On || has_ignored(notes) {
                    self.take_notes(now, peer, octets, notes);
                }
            }
            Err(fault) => {
                if self.logging == Logging::On {
                    set_refused(&mut self.line, now, *fault);
                    self.push();
                }
            }
        }
    }

    /// The speaker after a turn, before it sends.
    pub fn take_turn(&mut self, now: u64, speaker: &Speaker) {
        let version = speaker.routes_version();
        if self.logging == Logging::Off || (self.version == Some(version) && version < u64::MAX) {
            return;
        }
        match self.push_changes(now, speaker) {
            Ok(written) => {
                self.written = written;
                self.version = Some(version);
            }
            Err(_) => self.is_broken = true,
        }
    }

    /// A datagram that is sent next.
    pub fn take_sent(&mut self, now: u64, target: &Target, octets: &[u8]) {
        if self.logging == Logging::Off {
            return;
        }
        set_out(&mut self.line, now, target, count_messages(octets));
        self.push();
    }

    /// Adds the line.
    fn push(&mut self) {
        let len = self.text.len().saturating_add(self.line.octets().len());
        if len > MAX_LOG || push_line(&mut self.text, self.line.octets()).is_err() {
            self.is_broken = true;
        }
    }

    /// Takes what became of each TLV. Without memory for that a line is missing.
    fn take_notes(&mut self, now: u64, peer: Peer, octets: &[u8], notes: &[Note]) {
        let Ok(decoded) = Decoded::new(self.alloc, octets, peer.addr) else {
            self.is_broken = true;
            return;
        };
        let placed = decoded.placed();
        self.take_ignored(now, peer, octets, placed, notes);
        if self.logging == Logging::On {
            self.push_notes(now, placed, notes);
        }
    }

    /// Takes the Updates that were not stored. Without memory those that were ignored aren't known
    /// later.
    fn take_ignored(
        &mut self,
        now: u64,
        peer: Peer,
        octets: &[u8],
        placed: &[Placed],
        notes: &[Note],
    ) {
        let decoded = self.decode_retractions(peer, octets, placed);
        let retractions = match &decoded {
            Some(decoded) => decoded.placed(),
            None => &[],
        };
        let received = Received {
            now,
            peer,
            placed,
            retractions,
        };
        self.ignored.take(&received, notes);
    }

    /// What the datagram means if each ignored Update is a retraction.
    fn decode_retractions(&self, peer: Peer, octets: &[u8], placed: &[Placed]) -> Option<Decoded> {
        if !has_readable(placed) {
            return None;
        }
        let octets = with_retractions(self.alloc, octets, placed).ok()?;
        Decoded::new(self.alloc, &octets, peer.addr).ok()
    }

    /// Adds a line for each TLV.
    fn push_notes(&mut self, now: u64, placed: &[Placed], notes: &[Note]) {
        for (placed, note) in placed.iter().zip(notes) {
            set_moment(&mut self.line, now);
            push_tlv(&mut self.line, placed, &note.verdict);
            self.push();
        }
    }

    /// Adds a line for each prefix whose selected route is another. Returns the selected routes.
    fn push_changes(&mut self, now: u64, speaker: &Speaker) -> Result<Vec<Written>, AllocError> {
        let mut routes = Vec::new(self.alloc);
        let mut from = 0;
        for place in 0..MAX_PREFIXES {
            let Some(route) = selected_at(speaker, place) else {
                break;
            };
            from = self.push_change(now, from, &route);
            routes.push(route)?;
        }
        let end = self.written.len();
        self.push_gone(now, from, end);
        Ok(routes)
    }

    /// Adds a line for each prefix from `from` on that is gone before this route, and one for the
    /// route if it is another. Returns from where on the next one is.
    fn push_change(&mut self, now: u64, from: usize, route: &Written) -> usize {
        let index = first_not_before(&self.written, from, &route.prefix);
        self.push_gone(now, from, index);
        let before = known_at(&self.written, index, &route.prefix);
        let choice = Some(route.choice);
        if before != choice {
            set_select(&mut self.line, now, &route.prefix, &choice);
            self.push();
        }
        match before {
            Some(_) => index.saturating_add(1),
            None => index,
        }
    }

    /// Adds a line for each of these prefixes, which have no selected route any more.
    fn push_gone(&mut self, now: u64, from: usize, end: usize) {
        for index in from..end {
            if let Some(written) = self.written.get(index) {
                set_select(&mut self.line, now, &written.prefix, &None);
                self.push();
            }
        }
    }
}

/// The selected route at the index.
fn selected_at(speaker: &Speaker, place: usize) -> Option<Written> {
    match speaker.selection_at(place) {
        Some((prefix, selection)) => {
            let choice = choice_over(speaker, &selection);
            Some(Written { prefix, choice })
        }
        None => None,
    }
}

/// What is written of a selected route, over its link as of now.
fn choice_over(speaker: &Speaker, selection: &Selection) -> Choice {
    let cost = speaker.cost(&selection.peer);
    let distance = selection.entry.distance;
    Choice {
        peer: selection.peer,
        metric: distance.metric.add(cost),
        router: selection.entry.router,
        seqno: distance.seqno,
    }
}

/// The index of the first prefix from `from` on that isn't before this one.
fn first_not_before(written: &[Written], from: usize, prefix: &Prefix) -> usize {
    for index in from..written.len() {
        if let Some(known) = written.get(index) {
            if known.prefix.cmp(prefix) != Ordering::Less {
                return index;
            }
        }
    }
    written.len()
}

/// What was written of the prefix, if it is at the index.
fn known_at(written: &[Written], index: usize, prefix: &Prefix) -> Option<Choice> {
    match written.get(index) {
        Some(known) if known.prefix == *prefix => Some(known.choice),
        _ => None,
    }
}
