//! Updates that repeat what the neighbour advertised. Most updates do. Only a deadline changes, and
//! no choice (RFC 8966, sections 3.5.3 and 3.6).

ghost use Rattle.std.specs.Prelude.{◌≡◌, ◌↔◌, ℕ, Bool, true, Some, IfOk, OnOk, OnErr, IsErr, IfSome, IsSome, IsNone, is_some, option_map};
ghost use Rattle.std.specs.Ordering.{eq_by_cmp};
ghost use Rattle.std.specs.FinMap.{find, put};
ghost use Rattle.babel_value.specs.declared.keys.Peer.{Peer};
ghost use Rattle.babel_value.specs.Orders.{prefix_cmp, peer_cmp};
ghost use Rattle.babel_table.specs.Entries.{with_value};
ghost use Rattle.babel_table.specs.Places.{IsAt, IsGap};
ghost use Rattle.babel_choice.specs.RouteKeys.{route_cmp};
ghost use Rattle.babel_choice.specs.Routes.{key_of, entry_of_update, updated};
ghost use Rattle.babel_sources.specs.Sources.{Sources};
ghost use Rattle.babel_route.specs.Rooms.{most_routes};
ghost use Rattle.babel_route.specs.Selections.{selection_at, reselected, places_taken, IsCurrent};
ghost use Rattle.babel_route.specs.Repeats.{is_repeated, refreshed};
ghost use Rattle.babel_route.specs.SelectionChanges.{selection_change};
ghost use Rattle.babel_choice.specs.Choices.{peer_before};

use super::changes::SelectionChange;
use super::current::is_same_entry;
use super::room::places_within;
use super::{ROUTE_PLACES, RoutesOver};
use babel_choice::{Cursor, Entry, ReceivedUpdate, RouteKey, Selection};
use babel_table::{Full, Table, find_in, find_near};
use babel_value::{Peer, Prefix, hold_time};

/// What is done with an update that repeats its neighbour's entry.
#[derive(Clone, Copy, PartialEq, Eq)]
pub enum OnRepeat {
    /// The selection of its prefix is current, and only its deadline is set again.
    Refresh,
    /// It is stored as any other, and its prefix is to be selected again.
    Store,
}

/// What changed of the selection of a prefix when its deadline was set again, or `None` if the
/// prefix is to be selected again.
pub type Refreshed = Option<SelectionChange>;

impl<E: Table<RouteKey, Entry>, S: Table<Prefix, Selection>> RoutesOver<E, S> {
    /// Takes a neighbour's finite update of a prefix as `update` does. If it repeats the
    /// neighbour's entry, and that is asked for, only the deadline changes, in the entry and in the
    /// selection of the prefix if that is of this neighbour: if the selection is current, that is
    /// what a reselection of the prefix would leave. The searches begin at the cursor, which goes
    /// to the route.
    #[inline(always)]
    pub fn store_near(
        &mut self,
        now: u64,
        update: &ReceivedUpdate,
        on_repeat: OnRepeat,
        cursor: &mut Cursor,
    ) -> Result<Refreshed, Full>
        ensures full { IsErr result ↔ (IsNone (find route_cmp (key_of update.now.source.prefix update.now.peer) self.old.entries) × (places_taken self.old ≡ most_routes)) }
        ensures err { OnErr result (self.new ≡ self.old) }
        ensures stored { IfOk result (λ r. IsNone r → self.new ≡ record self.old { entries = updated now update.now.source.prefix update.now.peer update.now.source.router update.now.distance update.now.next_hop update.now.interval self.old.entries }) }
        ensures asked { IfOk result (λ r. IsSome r → on_repeat ≡ OnRepeat.Refresh) }
        ensures change { IfOk result (λ r. IfSome r (λ change. change ≡ selection_change (selection_at update.now.source.prefix self.old) (selection_at update.now.source.prefix self.new))) }
        ensures routes { IfOk result (λ r. IsSome r → (sources : Sources) (cost : Peer → ℕ) (local : Bool) → IsCurrent sources cost update.now.source.prefix local self.old → self.new ≡ reselected sources cost update.now.source.prefix local (record self.old { entries = updated now update.now.source.prefix update.now.peer update.now.source.router update.now.distance update.now.next_hop update.now.interval self.old.entries })) }
    {
        let key = key_of(update);
        let entry = entry_of(update, now);
        let mut place = cursor.entry;
        let known = find_near(&self.entries, &mut place, &key);
        cursor.entry = place;
        let Some(old) = known else {
            return match self.insert_near(place, key, entry) {
                Ok(()) => Ok(None),
                Err(full) => Err(full),
            };
        };
        if on_repeat == OnRepeat::Refresh && is_repeated(&entry, &old) {
            return Ok(Some(self.refresh_at(place, &key, &entry, cursor)));
        }
        self.due = self.due.min(entry.deadline);
        self.entries.replace(place, key, entry);
        Ok(None)
    }

    /// Takes a neighbour's finite update of a prefix if it repeats the neighbour's entry: only the
    /// deadline changes, in the entry and in the selection of the prefix if that is of this
    /// neighbour. If the selection is current, that is what a reselection of the prefix after the
    /// update would leave. Returns the selection before and after. `None` if and only if the update
    /// is another one; then nothing changes. The searches begin at the cursor, which goes to the
    /// route.
    pub fn refresh_near(
        &mut self,
        now: u64,
        update: &ReceivedUpdate,
        cursor: &mut Cursor,
    ) -> Option<(Option<Selection>, Option<Selection>)>
        ensures repeated { is_some result ≡ is_repeated (entry_of_update now update.now.source.router update.now.distance update.now.next_hop update.now.interval) (find route_cmp (key_of update.now.source.prefix update.now.peer) self.old.entries) }
        ensures none { IsNone result → self.new ≡ self.old }
        ensures before { IfSome result (λ r. r.0 ≡ selection_at update.now.source.prefix self.old) }
        ensures after { IfSome result (λ r. r.1 ≡ selection_at update.now.source.prefix self.new) }
        ensures routes { IsSome result → (sources : Sources) (cost : Peer → ℕ) (local : Bool) → IsCurrent sources cost update.now.source.prefix local self.old → self.new ≡ reselected sources cost update.now.source.prefix local (record self.old { entries = updated now update.now.source.prefix update.now.peer update.now.source.router update.now.distance update.now.next_hop update.now.interval self.old.entries }) }
    {
        let key = key_of(update);
        let entry = entry_of(update, now);
        let mut place = cursor.entry;
        let known = find_near(&self.entries, &mut place, &key);
        cursor.entry = place;
        match known {
            Some(old) if is_repeated(&entry, &old) => {
                let before = find_in(&self.selections, &key.prefix);
                self.refresh_at(place, &key, &entry, cursor);
                let after = find_in(&self.selections, &key.prefix);
                Some((before, after))
            }
            _ => None,
        }
    }

    /// Stores the entry of a key that the table lacks and would have at the index.
    fn insert_near(&mut self, place: usize, key: RouteKey, entry: Entry) -> Result<(), Full>
        requires gap { IsGap route_cmp key self.old.entries place }
        ensures full { IsErr result ↔ (places_taken self.old ≡ most_routes) }
        ensures ok { OnOk result (self.new ≡ record self.old { entries = put route_cmp key entry self.old.entries }) }
        ensures err { OnErr result (self.new ≡ self.old) }
    {
        let taken = places_within(&self.entries, &self.selections, self.taken);
        if taken >= ROUTE_PLACES {
            return Err(Full);
        }
        self.taken = taken + 1;
        self.due = self.due.min(entry.deadline);
        self.entries.insert(place, key, entry);
        Ok(())
    }

    /// Stores an entry that repeats that of its key, and sets the deadline of the prefix's
    /// selection if that is of the same neighbour. Returns what changed of that selection. The
    /// index is that of the key.
    fn refresh_at(
        &mut self,
        place: usize,
        key: &RouteKey,
        entry: &Entry,
        cursor: &mut Cursor,
    ) -> SelectionChange
        requires repeated { is_repeated entry.now (find route_cmp key.now self.old.entries) ≡ true }
        requires at { IsAt key.now self.old.entries place }
        ensures change { result ≡ selection_change (selection_at key.now.prefix self.old) (selection_at key.now.prefix self.new) }
        ensures routes { (sources : Sources) (cost : Peer → ℕ) (local : Bool) → IsCurrent sources cost key.now.prefix local self.old → self.new ≡ reselected sources cost key.now.prefix local (record self.old { entries = put route_cmp key.now entry.now self.old.entries }) }
    {
        self.due = self.due.min(entry.deadline);
        self.entries.replace(place, *key, *entry);
        let near = &mut cursor.selection;
        let before = refresh_selection(&mut self.selections, near, key, entry.deadline);
        SelectionChange::kept(before)
    }
}

/// The key of the route that an update is of.
#[inline(always)]
fn key_of(update: &ReceivedUpdate) -> RouteKey
    ensures { result ≡ key_of update.now.source.prefix update.now.peer }
{
    RouteKey {
        prefix: update.source.prefix,
        peer: update.peer,
    }
}

/// The entry that an update makes.
#[inline(always)]
fn entry_of(update: &ReceivedUpdate, now: u64) -> Entry
    ensures { result ≡ entry_of_update now update.now.source.router update.now.distance update.now.next_hop update.now.interval }
{
    Entry {
        router: update.source.router,
        distance: update.distance,
        next_hop: update.next_hop,
        interval: update.interval,
        deadline: now.saturating_add(hold_time(update.interval)),
    }
}

/// Whether the new entry is the old one but for the deadline.
fn is_repeated(new: &Entry, old: &Entry) -> bool
    ensures { result ≡ is_repeated new.now (Some old.now) }
{
    let mut entry = *old;
    entry.deadline = new.deadline;
    is_same_entry(&entry, new)
}

/// Sets the deadline of the selection of the key's prefix if it is of the key's neighbour. Returns
/// the neighbour of the selection. The search begins near an index, which becomes that of the
/// prefix.
fn refresh_selection<S: Table<Prefix, Selection>>(
    selections: &mut S,
    near: &mut usize,
    key: &RouteKey,
    deadline: u64,
) -> Option<Peer>
    ensures peer { result ≡ peer_before (find prefix_cmp key.now.prefix (S.entries selections.old)) }
    ensures entries { S.entries selections.new ≡ with_value prefix_cmp key.now.prefix (option_map (refreshed key.now.peer deadline) (find prefix_cmp key.now.prefix (S.entries selections.old))) (S.entries selections.old) }
    ensures room { S.room selections.new ≡ S.room selections.old }
{
    let Some(before) = find_near(selections, near, &key.prefix) else {
        return None;
    };
    let peer = before.peer;
    if is_of(&before, &key.peer) {
        let stored = with_deadline(&before, deadline);
        selections.replace(*near, key.prefix, stored);
    }
    Some(peer)
}

/// Whether the selection is of the neighbour.
fn is_of(selection: &Selection, peer: &Peer) -> bool
    ensures { result ≡ eq_by_cmp peer_cmp selection.now.peer peer.now }
{
    selection.peer.cmp(peer).is_eq()
}

/// The selection, with the new deadline.
fn with_deadline(selection: &Selection, deadline: u64) -> Selection
    ensures { result ≡ record selection.now { entry = record selection.now.entry { deadline = deadline } } }
{
    let mut new = *selection;
    new.entry.deadline = deadline;
    new
}
