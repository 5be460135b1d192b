//! The prefixes that a replay has seen, in the order in which it saw them first, with the route
//! that was last printed of each.

ghost use Rattle.std.specs.Prelude.{◌≡◌, ◌+◌, ◌≤◌, ◌<◌, [], length, zip, slice_get, OnOk, IsTrue, IsFalse};
ghost use Rattle.std.specs.Map.Iter.{deref_pair};
ghost use Rattle.std.specs.Option.{option_map};
ghost use Rattle.indexmap.specs.IndexMap.{set_value_at};
ghost use Rattle.babel_replay.specs.Seen.{is_same_route, is_same_choice, updated, updates_in, stored, with_seen, seen_after};

use crate::lines::Choice;
use babel_message::{Content, Message, Placed};
use babel_state::{Note, Verdict};
use babel_value::Prefix;
use indexmap::IndexMap;
use std::alloc::{AllocError, Global};
use std::marker::Model;

/// Whether the same is printed of both.
pub(crate) fn is_same(a: &Option<Choice>, b: &Option<Choice>) -> bool
    ensures { result ≡ is_same_choice a.now b.now }
{
    match (a, b) {
        (None, None) => true,
        (Some(a), Some(b)) => is_same_route(a, b),
        _ => false,
    }
}

/// Router-ids are compared by their order, which takes them as numbers.
#[tactic(auto, using(crate::proofs::Comparing::same_router))]
fn is_same_route(a: &Choice, b: &Choice) -> bool
    ensures { result ≡ is_same_route a.now b.now }
{
    a.peer.cmp(&b.peer).is_eq()
        && a.metric == b.metric
        && a.router.cmp(&b.router).is_eq()
        && a.seqno == b.seqno
}

/// The seen prefixes. A clause sees them in the order in which each was seen first, with what was
/// last printed of it.
#[derive(Drop)]
pub(crate) struct SeenPrefixes {
    table: IndexMap<Prefix, Option<Choice>>,
    // The index of the prefix that an Update named last. It only matters for speed.
    last: usize,
}

impl Model for SeenPrefixes {
    ghost use Rattle.indexmap.specs.IndexMap.{spare};
    ghost use Rattle.babel_replay.specs.Seen.{SeenTable};

    ghost Value = { SeenTable };

    ghost view = { λ s. record { entries = s.table.entries; room = spare s.table } };
}

impl SeenPrefixes {
    /// None, which takes no memory.
    pub(crate) fn new(alloc: Global) -> SeenPrefixes
        ensures { result.entries ≡ [] }
    {
        SeenPrefixes {
            table: IndexMap::new(alloc),
            last: 0,
        }
    }

    /// Makes room for as many more as a datagram of these places may name.
    pub(crate) fn reserve(&mut self, placed: &[Placed]) -> Result<(), AllocError>
        ensures unchanged { self.new.entries ≡ self.old.entries }
        ensures room { OnOk result (updates_in placed.now ≤ self.new.room) }
    {
        self.table.reserve(count_updates(placed))
    }

    /// Adds the prefixes of the Updates that were stored. Returns whether one of them is new.
    pub(crate) fn add_stored(&mut self, placed: &[Placed], notes: &[Note]) -> bool
        requires { updates_in placed.now ≤ self.old.room }
        ensures entries { self.new.entries ≡ seen_after (zip placed.now notes.now) self.old.entries }
        ensures same { IsFalse result → self.new.entries ≡ self.old.entries }
    {
        let count = self.len();
        for (place, note) in placed.iter().zip(notes) {
            if let Some(prefix) = stored_prefix(place, note) {
                self.see(prefix);
            }
        }
        self.len() > count
    }

    /// Adds a prefix, for which there is room, unless it was seen. Updates mostly come in the order
    /// in which their prefixes were seen first, so the one after the last is looked at before the
    /// table is searched.
    fn see(&mut self, prefix: Prefix)
        requires { 0 < self.old.room }
        ensures seen { self.new.entries ≡ with_seen prefix self.old.entries }
        ensures room { self.old.room ≤ self.new.room + 1 }
    {
        let next = self.last.wrapping_add(1);
        if self.is_at(next, &prefix) {
            self.last = next;
        } else {
            self.search_or_add(prefix);
        }
    }

    /// Whether the prefix is the one at the index.
    fn is_at(&self, index: usize, prefix: &Prefix) -> bool
        ensures { IsTrue result → with_seen prefix.now self.now.entries ≡ self.now.entries }
    {
        match self.table.get_index(index) {
            Some((seen, _)) => prefix.cmp(seen).is_eq(),
            None => false,
        }
    }

    /// Searches for a prefix, and adds it unless it was seen.
    fn search_or_add(&mut self, prefix: Prefix)
        requires { 0 < self.old.room }
        ensures seen { self.new.entries ≡ with_seen prefix self.old.entries }
        ensures room { self.old.room ≤ self.new.room + 1 }
    {
        let found = self.table.get_index_of(&prefix);
        self.last = found.unwrap_or(self.table.len());
        if found.is_none() {
            let _ = self.table.insert(prefix, None);
        }
    }

    /// How many there are.
    pub(crate) fn len(&self) -> usize
        ensures { result ≡ length self.now.entries }
    {
        self.table.len()
    }

    /// The prefix at the index, and what was last printed of it.
    pub(crate) fn get(&self, index: usize) -> Option<(&Prefix, &Option<Choice>)>
        ensures { option_map deref_pair result ≡ slice_get self.now.entries index }
    {
        self.table.get_index(index)
    }

    /// Notes what is printed of the prefix at the index.
    pub(crate) fn set(&mut self, index: usize, choice: Option<Choice>)
        ensures { self.new.entries ≡ set_value_at self.old.entries index choice }
    {
        set_choice(&mut self.table, index, choice);
    }
}

/// Stores what is printed of the prefix at the index.
fn set_choice(table: &mut IndexMap<Prefix, Option<Choice>>, index: usize, choice: Option<Choice>)
    ensures { table.new.entries ≡ set_value_at table.old.entries index choice }
{
    if let Some(last) = table.get_index_mut(index) {
        *last = choice;
    }
}

/// How many of the places are Updates.
fn count_updates(placed: &[Placed]) -> usize
    ensures { result ≡ updates_in placed.now }
{
    let mut count = 0;
    for place in placed {
        if updated(place).is_some() {
            count += 1;
        }
    }
    count
}

/// The prefix of an Update that was stored.
fn stored_prefix(place: &Placed, note: &Note) -> Option<Prefix>
    ensures { result ≡ stored (place.now, note.now) }
{
    match note.verdict {
        Verdict::Taken | Verdict::Unfeasible(_) => updated(place),
        _ => None,
    }
}

/// The prefix of an Update.
fn updated(place: &Placed) -> Option<Prefix>
    ensures { result ≡ updated place.now.content }
{
    match place.content {
        Content::Message(Message::Update { prefix, .. }) => Some(prefix),
        _ => None,
    }
}
