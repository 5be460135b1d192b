//! The source table (RFC 8966, section 3.2.5).

ghost use Rattle.std.specs.Prelude.{◌≡◌, ◌+◌, ◌≤◌, ◌<◌, ◌↔◌, [], true, None, length, slice_get, option_map, IfOk, OnOk, OnErr, IsErr, IsNone, IsTrue, IsFalse};
ghost use Rattle.std.specs.FinMap.{find, is_sorted};
ghost use Rattle.babel_value.specs.Orders.{source_cmp};
ghost use Rattle.babel_table.specs.Digits.{binary_digits};
ghost use Rattle.babel_table.specs.Places.{are_lesser};
ghost use Rattle.babel_sources.specs.Distances.{is_feasible, improves_on, better_pair};
ghost use Rattle.babel_sources.specs.Sources.{pair_of, lowered, collected, collected_entry};

mod clearing;

use crate::source_table::SourceTable;
use babel_table::{
    Change, Due, Full, Memory, Revised, Revision, Sought, Steps, Table, change_near, find_in,
    find_near, revise_dues,
};
use babel_value::{Distance, Source};
use std::alloc::Global;
use std::marker::Model;
use std::sync::ledger::Ledger;

/// How many sources a source table has room for.
pub const SOURCE_PLACES: usize = 512;

/// How long after the last update that named a source was sent its entry is collected, in
/// centiseconds (RFC 8966, appendix B: 3 minutes).
pub const COLLECTION_TIME: u64 = 18_000;

/// What a source table keeps of a source: its feasibility distance, and when it may be collected.
#[derive(Clone, Copy, PartialEq, Eq)]
pub struct SourceEntry {
    /// The best distance of an update that was sent for the source.
    pub distance: Distance,
    /// The moment, in centiseconds, from which on the entry may be collected.
    pub due: u64,
}

/// The source table: for each source its feasibility distance, in a table of the type `T`.
#[derive(Drop)]
pub struct SourcesOver<T: Table<Source, SourceEntry>> {
    table: T,
    /// No entry is due before this moment.
    due: u64,
}

impl Due for SourceEntry {
    ghost due_of = { λ source_entry. source_entry.due };

    fn due(&self) -> u64 {
        self.due
    }
}

/// The source table of a speaker.
pub type Sources = SourcesOver<SourceTable>;

impl<T: Table<Source, SourceEntry>> Model for SourcesOver<T> {
    ghost use Rattle.std.specs.Prelude.{◌≡◌};
    ghost use Rattle.babel_table.specs.Dues.{AreDueFrom};
    ghost use Rattle.babel_sources.specs.Rooms.{most_sources};
    ghost use Rattle.babel_sources.specs.Sources.{Sources};

    ghost Value = { Sources };

    ghost view = { λ s. T.entries s.table };

    ghost invariant = { λ s. (T.room s.table ≡ most_sources) × AreDueFrom (λ e. e.due) s.due (T.entries s.table) };
}

impl<T: Table<Source, SourceEntry>> SourcesOver<T> {
    /// An empty source table, with its whole room.
    pub fn new(alloc: Global) -> Result<SourcesOver<T>, Memory>
        ensures { IfOk result (λ sources. sources ≡ []) }
    {
        let table = T::with_room(alloc, SOURCE_PLACES)?;
        Ok(SourcesOver {
            table,
            due: u64::MAX,
        })
    }

    /// The pair of a source, with the steps of the look-up counted.
    pub fn look_up<L: Ledger, S: Sought<L, Source>>(
        &self,
        source: &S,
        steps: &mut Steps<L>,
    ) -> Option<Distance>
        ensures value { result ≡ pair_of (S.key source.now) self.now }
        ensures cost { steps.new ≤ steps.old + T.most_steps (length self.now) }
    {
        self.table
            .get(source, steps)
            .map(|source_entry| source_entry.distance)
    }

    /// The pair of a source.
    pub fn pair(&self, source: &Source) -> Option<Distance>
        ensures { result ≡ pair_of source.now self.now }
    {
        find_in(&self.table, source).map(|source_entry| source_entry.distance)
    }

    /// The same. The search begins near an index, which becomes that of the source, or the one at
    /// which it would be inserted.
    #[inline(always)]
    pub fn pair_near(&self, source: &Source, near: &mut usize) -> Option<Distance>
        ensures { result ≡ pair_of source.now self.now }
    {
        find_near(&self.table, near, source).map(|source_entry| source_entry.distance)
    }

    /// How many sources have an entry.
    pub fn len(&self) -> usize
        ensures len { result ≡ length self.now }
        ensures within { result ≤ SOURCE_PLACES }
        ensures in_order { IsTrue (is_sorted source_cmp self.now) }
    {
        self.table.len()
    }

    /// The source that has exactly `place` lesser ones, and its pair.
    pub fn at(&self, place: usize) -> Option<(Source, Distance)>
        ensures { result ≡ option_map (λ entry. (entry.0, entry.1.distance)) (slice_get self.now place) }
    {
        self.table
            .at(place)
            .map(|entry| (entry.0, entry.1.distance))
    }

    /// The source that has exactly `place` lesser ones, with its whole entry.
    pub fn entry_at(&self, place: usize) -> Option<(Source, SourceEntry)>
        ensures { result ≡ slice_get self.now place }
    {
        self.table.at(place)
    }

    /// Whether an update for the source is feasible (RFC 8966, section 3.5.1), by its advertised
    /// metric.
    pub fn feasible(&self, source: Source, update: Distance) -> bool
        ensures { result ≡ is_feasible (pair_of source self.now) update }
    {
        let mut near = usize::MAX;
        self.feasible_near(source, update, &mut near)
    }

    /// The same. The search begins near an index, as that of `pair_near`.
    #[inline(always)]
    pub fn feasible_near(&self, source: Source, update: Distance, near: &mut usize) -> bool
        ensures { result ≡ is_feasible (pair_of source self.now) update }
    {
        if !update.metric.is_finite() {
            return true;
        }
        improves(self.pair_near(&source, near), update)
    }

    /// Records that an update for the source is sent now with this distance (RFC 8966, section
    /// 3.7.3): the source's pair becomes the better of the two, and its time of collection is set
    /// again. `Full` if and only if the source has no entry and the table is full.
    pub fn lower(&mut self, now: u64, source: Source, sent: Distance) -> Result<(), Full>
        ensures full { IsErr result ↔ (IsNone (find source_cmp source self.old) × (length self.old ≡ SOURCE_PLACES)) }
        ensures ok { OnOk result (self.new ≡ lowered now source sent self.old) }
        ensures err { OnErr result (self.new ≡ self.old) }
    {
        let mut near = usize::MAX;
        self.lower_near(now, source, sent, &mut near)
    }

    /// The same. The search begins near an index, which becomes one near that of the source.
    pub fn lower_near(
        &mut self,
        now: u64,
        source: Source,
        sent: Distance,
        near: &mut usize,
    ) -> Result<(), Full>
        ensures full { IsErr result ↔ (IsNone (find source_cmp source self.old) × (length self.old ≡ SOURCE_PLACES)) }
        ensures ok { OnOk result (self.new ≡ lowered now source sent self.old) }
        ensures err { OnErr result (self.new ≡ self.old) }
    {
        match self.fetch_lower_near(now, source, sent, near) {
            Ok(_) => Ok(()),
            Err(full) => Err(full),
        }
    }

    /// The same, and it returns the pair that the source had before.
    pub fn fetch_lower_near(
        &mut self,
        now: u64,
        source: Source,
        sent: Distance,
        near: &mut usize,
    ) -> Result<Option<Distance>, Full>
        ensures full { IsErr result ↔ (IsNone (find source_cmp source self.old) × (length self.old ≡ SOURCE_PLACES)) }
        ensures ok { OnOk result (self.new ≡ lowered now source sent self.old) }
        ensures before { IfOk result (λ before. before ≡ pair_of source self.old) }
        ensures err { OnErr result (self.new ≡ self.old) }
    {
        let due = now.saturating_add(COLLECTION_TIME);
        self.due = self.due.min(due);
        let sending = Sending { sent, due };
        match change_near(&mut self.table, near, source, &sending) {
            Ok(before) => Ok(distance_of(before)),
            Err(full) => Err(full),
        }
    }

    /// Records the same of a source that comes after all others, for which the table has room. It
    /// is not searched for, so sources that rise are one pass.
    pub fn add_last(&mut self, now: u64, source: Source, sent: Distance)
        requires room { length self.old < SOURCE_PLACES }
        requires last { are_lesser source_cmp source self.old ≡ true }
        ensures { self.new ≡ lowered now source sent self.old }
    {
        let due = now.saturating_add(COLLECTION_TIME);
        self.due = self.due.min(due);
        let entry = SourceEntry {
            distance: sent,
            due,
        };
        let count = self.table.len();
        self.table.insert(count, source, entry);
    }

    /// Removes each entry whose time of collection has come (RFC 8966, section 3.2.5). Returns
    /// whether there was one. Before the first such moment it looks at no entry.
    pub fn collect(&mut self, now: u64) -> bool
        ensures sources { self.new ≡ collected now self.old }
        ensures removed { IsTrue result → length self.new < length self.old }
        ensures quiet { IsFalse result → self.new ≡ self.old }
    {
        if now < self.due {
            return false;
        }
        let count = self.table.len();
        self.due = revise_dues(&mut self.table, &Collection { now });
        self.table.len() < count
    }
}

impl SourcesOver<SourceTable> {
    /// The pair of a source, usually given as a `&Source`. The look-up takes at most as many steps
    /// as the number of entries has binary digits.
    pub fn get<L: Ledger, S: Sought<L, Source>>(
        &self,
        source: &S,
        steps: &mut Steps<L>,
    ) -> Option<Distance>
        ensures value { result ≡ pair_of (S.key source.now) self.now }
        ensures cost { steps.new ≤ steps.old + binary_digits (length self.now) }
    {
        self.look_up(source, steps)
    }
}

/// Whether an update is better than the pair of its source, if it has one.
fn improves(pair: Option<Distance>, update: Distance) -> bool
    ensures { result ≡ improves_on pair update }
{
    match pair {
        Some(pair) => update.better(pair),
        None => true,
    }
}

/// The better of a source's pair, if it has one, and a distance that is sent.
fn better_of(pair: Option<Distance>, sent: Distance) -> Distance
    ensures { result ≡ better_pair pair sent }
{
    match pair {
        Some(pair) => {
            let (old, new) = (pair, sent);
            if sent.better(pair) { new } else { old }
        }
        None => sent,
    }
}

/// The distance of an entry, if there is one.
fn distance_of(entry: Option<SourceEntry>) -> Option<Distance>
    ensures { result ≡ option_map (λ e. e.distance) entry }
{
    match entry {
        Some(entry) => Some(entry.distance),
        None => None,
    }
}

/// A distance that is sent, and the moment from which on its source may be collected.
#[derive(Drop)]
struct Sending {
    sent: Distance,
    due: u64,
}

impl Change<SourceEntry> for Sending {
    ghost changed = { λ sending entry. record { distance = better_pair (option_map (λ e. e.distance) entry) sending.sent; due = sending.due } };

    fn changed(&self, entry: Option<SourceEntry>) -> SourceEntry
        ensures { result ≡ record { distance = better_pair (option_map (λ e. e.distance) entry) self.now.sent; due = self.now.due } }
    {
        SourceEntry {
            distance: better_of(distance_of(entry), self.sent),
            due: self.due,
        }
    }
}

/// The collection at a moment.
#[derive(Drop)]
struct Collection {
    now: u64,
}

impl Revision<Source, SourceEntry> for Collection {
    ghost revised = { λ collection. collected_entry collection.now };

    fn revise(&self, _source: &Source, source_entry: &SourceEntry) -> Revised<SourceEntry> {
        if self.now >= source_entry.due {
            Revised::Removed
        } else {
            Revised::Kept
        }
    }
}
