//! The route table and route selection (RFC 8966, sections 3.2.6, 3.5 and 3.6).

ghost use Rattle.std.specs.Prelude.{◌≡◌, ◌↔◌, ◌≤◌, ◌<◌, [], length, slice_get, option_map, IfOk, OnOk, OnErr, IsErr, IsNone, IsSome, IsTrue, IsFalse, is_some, map, option_and_then, Some, None, if◌then◌else◌};
ghost use Rattle.std.specs.List.{filter};
ghost use Rattle.std.specs.FinMap.{find, is_sorted};
ghost use Rattle.babel_value.specs.Orders.{prefix_cmp};
ghost use Rattle.babel_route.specs.Rooms.{most_routes};
ghost use Rattle.babel_choice.specs.RouteKeys.{route_cmp};
ghost use Rattle.babel_choice.specs.Routes.{is_from, key_of, updated, retracted, retracted_all, has_routes_from, forgotten, all_forgotten, expired};
ghost use Rattle.babel_choice.specs.Choices.{routes_of};
ghost use Rattle.babel_choice.specs.Origins.{is_own};
ghost use Rattle.babel_choice.specs.PrefixBounds.{is_beyond};
ghost use Rattle.babel_route.specs.Selections.{choice_at, reselected, selection_at, SelectsTheFirst, places_taken, prefix_after};
ghost use Rattle.babel_table.specs.Entries.{without};
ghost use Rattle.babel_table.specs.Firsts.{first_of, lesser_of};
ghost use Rattle.babel_table.specs.Places.{IsAt};

mod changes;
mod current;
mod prefix_walk;
mod refresh;
mod room;

use crate::tables::{RouteTable, SelectionTable};
use babel_choice::{
    AllRoutes, AllSelections, ChoiceInputs, Costs, Cursor, Entry, Expiry, Flush, FlushEach, Origin,
    PrefixRoutes, ReceivedUpdate, Retraction, RouteKey, Selection, Through, choose,
};
use babel_sources::{SourceEntry, SourcesOver};
use babel_table::{Full, Memory, Table, find_in, find_near, places_below, revise_dues, seek_near};
use babel_value::{Addr, Distance, Peer, Prefix, RouterId, Source};
pub use changes::{OriginChange, Report, SelectionChange};
use current::replace_near;
pub use prefix_walk::PrefixWalk;
pub use refresh::{OnRepeat, Refreshed};
use std::alloc::Global;
use std::marker::Model;

/// How many entries a route table has room for.
pub const ROUTE_PLACES: usize = 256;

/// At most so many prefixes have an entry or a selection: one for each of both.
pub const PREFIX_PLACES: usize = 512;

/// The route table with its selections, in tables of the types `E` and `S`. Clauses see both as
/// lists in the order of their keys.
#[derive(Drop)]
pub struct RoutesOver<E: Table<RouteKey, Entry>, S: Table<Prefix, Selection>> {
    entries: E,
    selections: S,
    /// No route is due before this moment.
    due: u64,
    /// No more places are taken than this.
    taken: usize,
}

/// The route table of a speaker.
pub type Routes = RoutesOver<RouteTable, SelectionTable>;

impl<E: Table<RouteKey, Entry>, S: Table<Prefix, Selection>> Model for RoutesOver<E, S> {
    ghost use Rattle.std.specs.Prelude.{◌≡◌, ◌≤◌};
    ghost use Rattle.babel_table.specs.Dues.{AreDueFrom};
    ghost use Rattle.babel_route.specs.Rooms.{most_routes};
    ghost use Rattle.babel_route.specs.Selections.{RoutesValue, places_taken};

    ghost Value = { RoutesValue };

    ghost view = { λ r. record { entries = E.entries r.entries; selections = S.entries r.selections } };

    ghost invariant = { λ r. (E.room r.entries ≡ most_routes) × (S.room r.selections ≡ most_routes) × (places_taken (record { entries = E.entries r.entries; selections = S.entries r.selections }) ≤ r.taken) × AreDueFrom (λ e. e.deadline) r.due (E.entries r.entries) × (r.taken ≤ most_routes) };
}

impl<E: Table<RouteKey, Entry>, S: Table<Prefix, Selection>> RoutesOver<E, S> {
    /// An empty route table, with its whole room.
    pub fn new(alloc: Global) -> Result<RoutesOver<E, S>, Memory>
        ensures { IfOk result (λ routes. routes ≡ record { entries = []; selections = [] }) }
    {
        let entries = E::with_room(alloc, ROUTE_PLACES)?;
        let selections = S::with_room(alloc, ROUTE_PLACES)?;
        Ok(RoutesOver {
            entries,
            selections,
            due: u64::MAX,
            taken: 0,
        })
    }

    /// Takes a neighbour's finite update for a prefix, feasible or not (RFC 8966, section 3.5.3);
    /// the metric in the distance is the advertised one, the interval in centiseconds. It replaces
    /// the neighbour's route to the prefix. `Full` if and only if the neighbour has no route to the
    /// prefix and all places are taken: one for each entry, and one for each prefix that has a
    /// selection but no entry.
    pub fn update(
        &mut self,
        now: u64,
        prefix: Prefix,
        peer: Peer,
        router: RouterId,
        distance: Distance,
        next_hop: Addr,
        interval: u16,
    ) -> Result<(), Full>
        ensures full { IsErr result ↔ (IsNone (find route_cmp (key_of prefix peer) self.old.entries) × (places_taken self.old ≡ most_routes)) }
        ensures ok { OnOk result (self.new ≡ record self.old { entries = updated now prefix peer router distance next_hop interval self.old.entries }) }
        ensures err { OnErr result (self.new ≡ self.old) }
    {
        let update = ReceivedUpdate {
            peer,
            source: Source { prefix, router },
            next_hop,
            distance,
            interval,
        };
        let mut cursor = Cursor::new();
        self.update_near(now, &update, &mut cursor)
    }

    /// The same. The search begins at the cursor, which goes to the route.
    pub fn update_near(
        &mut self,
        now: u64,
        update: &ReceivedUpdate,
        cursor: &mut Cursor,
    ) -> Result<(), Full>
        ensures full { IsErr result ↔ (IsNone (find route_cmp (key_of update.now.source.prefix update.now.peer) self.old.entries) × (places_taken self.old ≡ most_routes)) }
        ensures ok { OnOk result (self.new ≡ record self.old { entries = updated now update.now.source.prefix update.now.peer update.now.source.router update.now.distance update.now.next_hop update.now.interval self.old.entries }) }
        ensures err { OnErr result (self.new ≡ self.old) }
    {
        match self.store_near(now, update, OnRepeat::Store, cursor) {
            Ok(_) => Ok(()),
            Err(full) => Err(full),
        }
    }

    /// Takes a neighbour's retraction of a prefix: the entry's metric becomes infinite, all else of
    /// it stays, and its hold time begins again. False if there is no entry.
    pub fn retract(&mut self, now: u64, prefix: &Prefix, peer: &Peer) -> bool
        ensures found { result ≡ is_some (find route_cmp (key_of prefix.now peer.now) self.old.entries) }
        ensures routes { self.new ≡ record self.old { entries = retracted now prefix.now peer.now self.old.entries } }
    {
        let key = RouteKey {
            prefix: *prefix,
            peer: *peer,
        };
        let mut cursor = Cursor::new();
        self.retract_near(now, &key, &mut cursor)
    }

    /// The same of the key's prefix and neighbour. The search begins at the cursor, which goes to
    /// the route.
    #[inline(never)]
    pub fn retract_near(&mut self, now: u64, key: &RouteKey, cursor: &mut Cursor) -> bool
        ensures found { result ≡ is_some (find route_cmp key.now self.old.entries) }
        ensures routes { self.new ≡ record self.old { entries = retracted now key.now.prefix key.now.peer self.old.entries } }
    {
        let mut place = cursor.entry;
        let found = find_near(&self.entries, &mut place, key);
        cursor.entry = place;
        match found {
            Some(entry) => {
                let retracted = entry.retracted(now);
                self.due = self.due.min(retracted.deadline);
                self.entries.replace(place, *key, retracted);
                true
            }
            None => false,
        }
    }

    /// Takes a neighbour's retraction of all its routes (RFC 8966, section 4.6.9). False if it has
    /// no entry.
    pub fn retract_all(&mut self, now: u64, peer: &Peer) -> bool
        ensures found { result ≡ has_routes_from peer.now self.old.entries }
        ensures routes { self.new ≡ record self.old { entries = retracted_all now peer.now self.old.entries } }
    {
        let found = has_routes_from(&self.entries, peer);
        if found {
            self.due = revise_dues(&mut self.entries, &Retraction { now, peer: *peer });
        }
        found
    }

    /// Removes all routes of the neighbour, as a flush of the neighbour asks.
    pub fn forget(&mut self, peer: &Peer)
        ensures { self.new ≡ record self.old { entries = forgotten peer.now self.old.entries } }
    {
        self.due = revise_dues(&mut self.entries, &Flush { peer: *peer });
    }

    /// Removes all routes of each of the neighbours, in one pass.
    pub fn forget_all(&mut self, peers: &[Peer])
        ensures routes { self.new ≡ record self.old { entries = all_forgotten peers.now self.old.entries } }
        ensures in_order { IsTrue (is_sorted route_cmp self.new.entries) }
        ensures selections_in_order { IsTrue (is_sorted prefix_cmp self.new.selections) }
    {
        if !peers.is_empty() {
            self.due = revise_dues(&mut self.entries, &FlushEach::new(peers));
        }
        // The tables are in order.
        let _count = self.len();
    }

    /// Whether a deadline may be due at this moment. It looks at no route.
    pub fn may_be_due(&self, now: u64) -> bool
        ensures { IsFalse result → expired now self.now.entries ≡ self.now.entries }
    {
        self.due <= now
    }

    /// Takes the deadlines that are due, each once: a route with a finite metric is retracted and
    /// its hold time begins again, one with an infinite metric goes (RFC 8966, section 3.5.4).
    /// Returns `false` if no deadline is due; then it looks at no route.
    pub fn expire(&mut self, now: u64) -> bool
        ensures routes { self.new ≡ record self.old { entries = expired now self.old.entries } }
        ensures quiet { IsFalse result → self.new ≡ self.old }
        ensures in_order { IsTrue (is_sorted route_cmp self.new.entries) }
        ensures selections_in_order { IsTrue (is_sorted prefix_cmp self.new.selections) }
    {
        if !self.may_be_due(now) {
            return false;
        }
        self.due = revise_dues(&mut self.entries, &Expiry { now });
        true
    }

    /// How many entries there are.
    pub fn len(&self) -> usize
        ensures len { result ≡ length self.now.entries }
        ensures within { places_taken self.now ≤ ROUTE_PLACES }
        ensures in_order { IsTrue (is_sorted route_cmp self.now.entries) }
        ensures selections_in_order { IsTrue (is_sorted prefix_cmp self.now.selections) }
    {
        self.entries.len()
    }

    /// How many prefixes have a selected route.
    pub fn selection_count(&self) -> usize
        ensures { result ≡ length self.now.selections }
    {
        self.selections.len()
    }

    /// The route that exactly `place` others come before.
    pub fn at(&self, place: usize) -> Option<(Prefix, Peer, Entry)>
        ensures { result ≡ option_map (λ route. (route.0.prefix, route.0.peer, route.1)) (slice_get self.now.entries place) }
    {
        self.entries
            .at(place)
            .map(|route| (route.0.prefix, route.0.peer, route.1))
    }

    /// The prefix of the route that exactly `place` others come before, if the neighbour advertised
    /// it.
    #[inline(always)]
    pub fn prefix_from(&self, place: usize, peer: &Peer) -> Option<Prefix>
        ensures { result ≡ option_and_then (λ route. if is_from peer.now route.0 then Some route.0.prefix else None) (slice_get self.now.entries place) }
    {
        let route = self.entries.at(place)?;
        if !route.0.peer.cmp(peer).is_eq() {
            return None;
        }
        Some(route.0.prefix)
    }

    /// The neighbour's entry for the prefix.
    pub fn entry(&self, prefix: &Prefix, peer: &Peer) -> Option<Entry>
        ensures { result ≡ find route_cmp (key_of prefix.now peer.now) self.now.entries }
    {
        let key = RouteKey {
            prefix: *prefix,
            peer: *peer,
        };
        find_in(&self.entries, &key)
    }

    /// All routes, in the order of their keys.
    pub fn routes(&self) -> AllRoutes<'_, E>
        ensures { result ≡ self.now.entries }
    {
        AllRoutes::new(&self.entries)
    }

    /// All selections, in the order of their prefixes.
    pub fn selections(&self) -> AllSelections<'_, S>
        ensures selections { result ≡ self.now.selections }
        ensures few { length self.now.selections ≤ ROUTE_PLACES }
    {
        let _count = self.selections.len();
        AllSelections::new(&self.selections)
    }

    /// The selection whose prefix has exactly `place` lesser ones.
    #[inline(always)]
    pub fn selection_at(&self, place: usize) -> Option<(Prefix, Selection)>
        ensures selection { result ≡ slice_get self.now.selections place }
        ensures within { IsSome result → place < ROUTE_PLACES }
    {
        let _count = self.selections.len();
        self.selections.at(place)
    }

    /// Removes the selection of the prefix, which is at the index.
    #[inline(always)]
    pub fn unselect_at(&mut self, place: usize, prefix: &Prefix)
        requires { IsAt prefix.now self.old.selections place }
        ensures { self.new ≡ record self.old { selections = without prefix_cmp prefix.now self.old.selections } }
    {
        self.selections.remove_at(place, prefix);
    }

    /// A walk over the prefixes that have an entry or a selection, in ascending order.
    pub fn prefixes(&self) -> PrefixWalk<'_, E, S>
        ensures walk { result ≡ self.now }
        ensures few { length self.now.entries ≤ ROUTE_PLACES }
        ensures few_selections { length self.now.selections ≤ ROUTE_PLACES }
        ensures in_order { IsTrue (is_sorted route_cmp self.now.entries) }
        ensures selections_in_order { IsTrue (is_sorted prefix_cmp self.now.selections) }
    {
        let _entries = self.entries.len();
        let _selections = self.selections.len();
        PrefixWalk::new(&self.entries, &self.selections)
    }

    /// The routes of the prefix, in the order of the neighbours.
    pub fn routes_of(&self, prefix: &Prefix) -> PrefixRoutes<'_, E>
        ensures { result ≡ routes_of prefix.now self.now.entries }
    {
        PrefixRoutes::new(&self.entries, *prefix)
    }

    /// The same. The search begins at the index, which goes to the route before the first one of
    /// the prefix.
    #[inline(always)]
    pub fn routes_of_near(&self, prefix: &Prefix, near: &mut usize) -> PrefixRoutes<'_, E>
        ensures { result ≡ routes_of prefix.now self.now.entries }
    {
        PrefixRoutes::new_near(&self.entries, *prefix, near)
    }

    /// The route of the prefix that was selected, as the last reselection left it.
    pub fn selected(&self, prefix: &Prefix) -> Option<(Peer, Entry)>
        ensures { result ≡ option_map (λ s. (s.peer, s.entry)) (selection_at prefix.now self.now) }
    {
        find_in(&self.selections, prefix).map(|selection| (selection.peer, selection.entry))
    }

    /// The selection of the prefix, as the last reselection left it. The search begins at the
    /// cursor, which goes to the next prefix: prefixes that rise are each found at once.
    #[inline(always)]
    pub fn selected_near(&self, prefix: &Prefix, cursor: &mut Cursor) -> Option<Selection>
        ensures { result ≡ selection_at prefix.now self.now }
    {
        let mut near = cursor.selection;
        let selection = find_near(&self.selections, &mut near, prefix);
        // The next search may begin at any index: this one is mostly the right one.
        cursor.selection = near.wrapping_add(usize::from(selection.is_some()));
        selection
    }

    /// The same with the prefix, as the table has it. The search begins at the index `near` of the
    /// selections, which becomes the one after the prefix, or that at which the prefix would be.
    #[inline(always)]
    pub fn selection_near(&self, prefix: &Prefix, near: &mut usize) -> Option<(Prefix, Selection)>
        ensures { option_map (λ e. e.1) result ≡ selection_at prefix.now self.now }
    {
        let mut place = *near;
        if !seek_near(&self.selections, &mut place, prefix) {
            *near = place;
            return None;
        }
        *near = place.wrapping_add(1);
        self.selections.at(place)
    }

    /// Selects the route of the prefix again (RFC 8966, section 3.6): the candidate of the least
    /// metric, among equals the one selected before, then that of the least neighbour; none if the
    /// prefix is the speaker's own. A candidate is feasible against the source table now, and its
    /// metric by the neighbour's cost now is finite. The result is the selection that the last
    /// reselection of the prefix left, and the one that this leaves.
    pub fn select<T: Table<Source, SourceEntry>, C: Costs>(
        &mut self,
        prefix: &Prefix,
        origin: Origin,
        sources: &SourcesOver<T>,
        costs: &C,
    ) -> (Option<Selection>, Option<Selection>)
        ensures before { result.0 ≡ selection_at prefix.now self.old }
        ensures after { result.1 ≡ choice_at sources.now (C.cost_of costs.now) prefix.now (is_own origin) self.old }
        ensures selected { result.1 ≡ selection_at prefix.now self.new }
        ensures first { SelectsTheFirst sources.now (C.cost_of costs.now) prefix.now (is_own origin) self.old self.new }
        ensures routes { self.new ≡ reselected sources.now (C.cost_of costs.now) prefix.now (is_own origin) self.old }
    {
        let mut cursor = Cursor::new();
        self.select_near(prefix, origin, sources, costs, &mut cursor)
    }

    /// The same. The searches begin at the cursor, which goes to the prefix.
    #[inline(always)]
    pub fn select_near<T: Table<Source, SourceEntry>, C: Costs>(
        &mut self,
        prefix: &Prefix,
        origin: Origin,
        sources: &SourcesOver<T>,
        costs: &C,
        cursor: &mut Cursor,
    ) -> (Option<Selection>, Option<Selection>)
        ensures before { result.0 ≡ selection_at prefix.now self.old }
        ensures after { result.1 ≡ choice_at sources.now (C.cost_of costs.now) prefix.now (is_own origin) self.old }
        ensures selected { result.1 ≡ selection_at prefix.now self.new }
        ensures first { SelectsTheFirst sources.now (C.cost_of costs.now) prefix.now (is_own origin) self.old self.new }
        ensures routes { self.new ≡ reselected sources.now (C.cost_of costs.now) prefix.now (is_own origin) self.old }
    {
        let mut place = cursor.selection;
        let before = find_near(&self.selections, &mut place, prefix);
        let inputs = ChoiceInputs {
            entries: &self.entries,
            sources,
            costs,
        };
        let after = choose(&inputs, prefix, origin, &before, cursor);
        replace_near(&mut self.selections, place, *prefix, &before, after);
        cursor.selection = place;
        (copy_of(&before), copy_of(&after))
    }

    /// The same. The result is the entry that the last reselection of the prefix selected, as it
    /// was then, and the one that is selected now.
    pub fn reselect<T: Table<Source, SourceEntry>, C: Costs>(
        &mut self,
        prefix: &Prefix,
        local: bool,
        sources: &SourcesOver<T>,
        costs: &C,
    ) -> (Option<Entry>, Option<Entry>)
        ensures before { result.0 ≡ option_map (λ s. s.entry) (selection_at prefix.now self.old) }
        ensures after { result.1 ≡ option_map (λ s. s.entry) (choice_at sources.now (C.cost_of costs.now) prefix.now local self.old) }
        ensures first { SelectsTheFirst sources.now (C.cost_of costs.now) prefix.now local self.old self.new }
        ensures routes { self.new ≡ reselected sources.now (C.cost_of costs.now) prefix.now local self.old }
    {
        let (before, after) = self.select(prefix, origin_of(local), sources, costs);
        (entry_of(&before), entry_of(&after))
    }

    /// The least prefix that has an entry or a selection and is greater than the one given.
    pub fn next_prefix(&self, after: Option<&Prefix>) -> Option<Prefix>
        ensures { result ≡ prefix_after (option_map (λ prefix. prefix.now) after.entry) self.now }
    {
        let bound = Through {
            prefix: after.copied(),
        };
        let route = route_prefix_after(&self.entries, &bound);
        let selection = selected_prefix_after(&self.selections, &bound);
        lesser_prefix(route, selection)
    }
}

impl RoutesOver<RouteTable, SelectionTable> {
    /// Removes all routes and selections. Their room stays.
    pub fn clear(&mut self)
        ensures { self.new ≡ record { entries = []; selections = [] } }
    {
        self.entries.clear();
        self.selections.clear();
        self.due = u64::MAX;
        self.taken = 0;
    }
}

/// Who announces the prefix, by whether it is the speaker's own.
fn origin_of(local: bool) -> Origin
    ensures { is_own result ≡ local }
{
    if local { Origin::Own } else { Origin::Learned }
}

fn copy_of(selection: &Option<Selection>) -> Option<Selection>
    ensures { result ≡ selection.now }
{
    *selection
}

fn entry_of(selection: &Option<Selection>) -> Option<Entry>
    ensures { result ≡ option_map (λ s. s.entry) selection.now }
{
    match selection {
        Some(selection) => Some(selection.entry),
        None => None,
    }
}

/// The least prefix of a route beyond the bound.
fn route_prefix_after<E: Table<RouteKey, Entry>>(entries: &E, bound: &Through) -> Option<Prefix>
    ensures { result ≡ first_of prefix_cmp (filter (is_beyond bound.now.prefix) (map (λ e. e.0.prefix) (E.entries entries.now))) }
{
    let place = places_below(entries, bound);
    match entries.at(place) {
        Some(route) => Some(route.0.prefix),
        None => None,
    }
}

/// The least prefix with a selection beyond the bound.
fn selected_prefix_after<S: Table<Prefix, Selection>>(
    selections: &S,
    bound: &Through,
) -> Option<Prefix>
    ensures { result ≡ first_of prefix_cmp (filter (is_beyond bound.now.prefix) (map (λ s. s.0) (S.entries selections.now))) }
{
    let place = places_below(selections, bound);
    match selections.at(place) {
        Some(selection) => Some(selection.0),
        None => None,
    }
}

/// The lesser of the prefixes, of those that there are.
fn lesser_prefix(one: Option<Prefix>, other: Option<Prefix>) -> Option<Prefix>
    ensures { result ≡ lesser_of prefix_cmp one other }
{
    let Some(a) = one else {
        return other;
    };
    match other {
        Some(b) => Some(if b.cmp(&a).is_lt() { b } else { a }),
        None => Some(a),
    }
}

/// Whether the neighbour has an entry for any prefix.
fn has_routes_from<E: Table<RouteKey, Entry>>(entries: &E, peer: &Peer) -> bool
    ensures { result ≡ has_routes_from peer.now (E.entries entries.now) }
{
    for route in AllRoutes::new(entries) {
        if route.0.peer.cmp(peer).is_eq() {
            return true;
        }
    }
    false
}
