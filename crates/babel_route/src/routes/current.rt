//! Whether the selection of a prefix is current (RFC 8966, section 3.6).

ghost use Rattle.std.specs.Prelude.{◌≡◌, ◌<◌, Bool, true, Some, None, length, slice_get, option_and_then, if◌then◌else◌, IsSome, IsNone, IsTrue, IfSome};
ghost use Rattle.std.specs.FinMap.{find};
ghost use Rattle.std.specs.Ordering.{eq_by_cmp};
ghost use Rattle.babel_value.specs.Orders.{prefix_cmp, peer_cmp};
ghost use Rattle.babel_table.specs.Entries.{with_value};
ghost use Rattle.babel_table.specs.Places.{IsAt, IsGap};
ghost use Rattle.babel_choice.specs.Choices.{is_change, peer_before, selection_of};
ghost use Rattle.babel_choice.specs.Origins.{is_own};
ghost use Rattle.babel_route.specs.declared.routes.changes.Report.{Report};
ghost use Rattle.babel_route.specs.SelectionChanges.{is_alike, origin_change, selection_change, selection_from};
ghost use Rattle.babel_route.specs.Currency.{is_same_distance, is_same_entry, is_same_selection, is_current};
ghost use Rattle.babel_route.specs.Selections.{selection_at, reselected, IsCurrentBut};

use super::RoutesOver;
use super::changes::{OriginChange, Report, SelectionChange};
use babel_choice::{
    ChoiceInputs, Costs, Cursor, Entry, Origin, RouteKey, Selection, choose, choose_place,
    overtakes, peer_of,
};
use babel_sources::{SourceEntry, SourcesOver};
use babel_table::{Table, find_near, seek_near};
use babel_value::{Distance, Peer, Prefix, Source};

impl<E: Table<RouteKey, Entry>, S: Table<Prefix, Selection>> RoutesOver<E, S> {
    /// Whether the selection of the prefix is the one that a reselection would leave. The searches
    /// begin at the cursor, which goes to the prefix.
    pub fn is_current_near<T: Table<Source, SourceEntry>, C: Costs>(
        &self,
        prefix: &Prefix,
        origin: Origin,
        sources: &SourcesOver<T>,
        costs: &C,
        cursor: &mut Cursor,
    ) -> bool
        ensures { result ≡ is_current sources.now (C.cost_of costs.now) prefix.now (is_own origin) self.now }
    {
        let mut place = cursor.selection;
        let before = find_near(&self.selections, &mut place, prefix);
        cursor.selection = place;
        let inputs = ChoiceInputs {
            entries: &self.entries,
            sources,
            costs,
        };
        let after = choose(&inputs, prefix, origin, &before, cursor);
        is_same_selection(&before, &after)
    }

    /// The neighbour of the selection of the key's prefix, if it is another one and a reselection
    /// would leave the selection, since the route of the key's neighbour is no better. That follows
    /// from these two routes alone if the selection is current but for the routes of that
    /// neighbour. `None` says nothing. The cursor is at the neighbour's route, and goes to the
    /// selection.
    #[inline(always)]
    pub fn kept_selection<T: Table<Source, SourceEntry>, C: Costs>(
        &self,
        key: &RouteKey,
        sources: &SourcesOver<T>,
        costs: &C,
        cursor: &mut Cursor,
    ) -> Option<Peer>
        ensures selection { IsSome result → result ≡ peer_before (selection_at key.now.prefix self.now) }
        ensures kept { IsSome result → (local : Bool) → IsCurrentBut sources.now (C.cost_of costs.now) key.now.peer key.now.prefix local self.now → self.now ≡ reselected sources.now (C.cost_of costs.now) key.now.prefix local self.now }
    {
        let mut place = cursor.selection;
        let before = find_near(&self.selections, &mut place, &key.prefix);
        cursor.selection = place;
        let route = rival(&self.entries, cursor.entry, key, &before)?;
        let inputs = ChoiceInputs {
            entries: &self.entries,
            sources,
            costs,
        };
        if overtakes(&inputs, &route, &before, &mut cursor.source) {
            return None;
        }
        peer_of(&before)
    }

    /// Whether some prefix may have routes of several neighbours and a selection: there are
    /// selections, and more routes.
    #[inline(always)]
    pub fn are_shared(&self) -> bool {
        let selected = self.selections.len();
        selected > 0 && self.entries.len() > selected
    }

    /// Whether the route at the index is next to one of the same prefix, so that its prefix has
    /// routes of several neighbours.
    #[inline(always)]
    pub fn is_shared(&self, place: usize) -> bool {
        let Some(route) = self.entries.at(place) else {
            return false;
        };
        let prefix = &route.0.prefix;
        has_prefix_at(&self.entries, place.wrapping_add(1), prefix)
            || has_prefix_at(&self.entries, place.wrapping_sub(1), prefix)
    }

    /// Selects the route of the prefix again, as `select_near`, and returns what changed. No
    /// selection is copied but one that is stored. The cursor goes to the next prefix.
    #[inline(always)]
    pub fn select_changed<T: Table<Source, SourceEntry>, C: Costs>(
        &mut self,
        prefix: &Prefix,
        origin: Origin,
        sources: &SourcesOver<T>,
        costs: &C,
        cursor: &mut Cursor,
    ) -> SelectionChange
        ensures change { result ≡ selection_change (selection_at prefix.now self.old) (selection_at prefix.now self.new) }
        ensures routes { self.new ≡ reselected sources.now (C.cost_of costs.now) prefix.now (is_own origin) self.old }
    {
        let mut place = cursor.selection;
        let before = selected_peer_near(&self.selections, &mut place, prefix);
        let inputs = ChoiceInputs {
            entries: &self.entries,
            sources,
            costs,
        };
        let chosen = choose_place(&inputs, prefix, origin, before, cursor);
        // After a selection that is new, the next one is mostly new too: then its search begins
        // here.
        cursor.selection = place.wrapping_add(usize::from(before.is_some() && chosen.is_some()));
        if before.is_some() {
            exchange_at(&self.entries, &mut self.selections, place, prefix, chosen)
        } else {
            insert_at(&self.entries, &mut self.selections, place, prefix, chosen)
        }
    }
}

/// The neighbour of the prefix's selection. `near` becomes the index of the selection, or the one
/// at which it would be inserted.
#[inline(always)]
fn selected_peer_near<S: Table<Prefix, Selection>>(
    selections: &S,
    near: &mut usize,
    prefix: &Prefix,
) -> Option<Peer>
    ensures peer { result ≡ peer_before (find prefix_cmp prefix.now (S.entries selections.now)) }
    ensures at { IsSome result → IsAt prefix.now (S.entries selections.now) near.new }
    ensures gap { IsNone result → IsGap prefix_cmp prefix.now (S.entries selections.now) near.new }
{
    if !seek_near(selections, near, prefix) {
        return None;
    }
    let selected = selections.at(*near)?;
    Some(selected.1.peer)
}

/// Makes the route at the index `chosen` the selection of the prefix, whose selection is at the
/// index `place`, or removes that if there is none.
#[inline(always)]
fn exchange_at<E: Table<RouteKey, Entry>, S: Table<Prefix, Selection>>(
    entries: &E,
    selections: &mut S,
    place: usize,
    prefix: &Prefix,
    chosen: Option<usize>,
) -> SelectionChange
    requires at { IsAt prefix.now (S.entries selections.old) place }
    ensures change { result ≡ selection_change (find prefix_cmp prefix.now (S.entries selections.old)) (selection_from chosen (E.entries entries.now)) }
    ensures entries { S.entries selections.new ≡ with_value prefix_cmp prefix.now (selection_from chosen (E.entries entries.now)) (S.entries selections.old) }
    ensures room { S.room selections.new ≡ S.room selections.old }
{
    let Some(old) = selections.at(place) else {
        return SelectionChange::kept(None);
    };
    let Some(new) = route_from(entries, chosen) else {
        selections.remove_at(place, prefix);
        return loss_of(&old.1);
    };
    if is_selection_of(&old.1, &new) {
        return SelectionChange::kept(Some(old.1.peer));
    }
    selections.replace(place, *prefix, selection_of(&new));
    change_to(&old.1, &new)
}

/// Makes the route at the index `chosen` the selection of the prefix, which has none and would have
/// it at the index `place`.
#[inline(always)]
fn insert_at<E: Table<RouteKey, Entry>, S: Table<Prefix, Selection>>(
    entries: &E,
    selections: &mut S,
    place: usize,
    prefix: &Prefix,
    chosen: Option<usize>,
) -> SelectionChange
    requires gap { IsGap prefix_cmp prefix.now (S.entries selections.old) place }
    requires room { IsSome (selection_from chosen (E.entries entries.now)) → length (S.entries selections.old) < S.room selections.old }
    ensures change { result ≡ selection_change (find prefix_cmp prefix.now (S.entries selections.old)) (selection_from chosen (E.entries entries.now)) }
    ensures entries { S.entries selections.new ≡ with_value prefix_cmp prefix.now (selection_from chosen (E.entries entries.now)) (S.entries selections.old) }
    ensures room { S.room selections.new ≡ S.room selections.old }
{
    match route_from(entries, chosen) {
        Some(new) => {
            selections.insert(place, *prefix, selection_of(&new));
            SelectionChange {
                before: None,
                origin: OriginChange::New,
                report: Report::Other,
            }
        }
        None => SelectionChange::kept(None),
    }
}

/// The route at the index, if there is one.
#[inline(always)]
fn route_from<E: Table<RouteKey, Entry>>(
    entries: &E,
    place: Option<usize>,
) -> Option<(RouteKey, Entry)>
    ensures { result ≡ option_and_then (slice_get (E.entries entries.now)) place }
{
    entries.at(place?)
}

/// The selection of a route.
#[inline(always)]
fn selection_of(route: &(RouteKey, Entry)) -> Selection
    ensures { result ≡ selection_of route.now }
{
    Selection {
        peer: route.0.peer,
        entry: route.1,
    }
}

/// Whether the selection is the route as it is.
#[inline(always)]
fn is_selection_of(selection: &Selection, route: &(RouteKey, Entry)) -> bool
    ensures { IsTrue result → selection.now ≡ selection_of route.now }
{
    selection.peer.cmp(&route.0.peer).is_eq() && is_same_entry(&selection.entry, &route.1)
}

/// The loss of a selected route.
#[inline(always)]
fn loss_of(old: &Selection) -> SelectionChange
    ensures { result ≡ selection_change (Some old.now) None }
{
    SelectionChange {
        before: Some(old.peer),
        origin: OriginChange::Lost {
            router: old.entry.router,
            seqno: old.entry.distance.seqno,
        },
        report: Report::Other,
    }
}

/// The change from the selection to the route.
#[inline(always)]
fn change_to(old: &Selection, new: &(RouteKey, Entry)) -> SelectionChange
    ensures { result ≡ selection_change (Some old.now) (Some (selection_of new.now)) }
{
    SelectionChange {
        before: Some(old.peer),
        origin: origin_of(old, new),
        report: report_of(old, new),
    }
}

/// How the origin changes from the selection to the route.
#[inline(always)]
fn origin_of(old: &Selection, new: &(RouteKey, Entry)) -> OriginChange
    ensures { result ≡ origin_change (Some old.now) (Some (selection_of new.now)) }
{
    if old.entry.router.cmp(&new.1.router).is_eq() {
        OriginChange::Same
    } else {
        OriginChange::New
    }
}

/// Whether the same is reported of the selection and of the route.
#[inline(always)]
fn report_of(old: &Selection, new: &(RouteKey, Entry)) -> Report
    ensures { result ≡ (if is_alike old.now (selection_of new.now) then Report.Alike else Report.Other) }
{
    if is_alike(old, new) {
        Report::Alike
    } else {
        Report::Other
    }
}

#[inline(always)]
fn is_alike(old: &Selection, new: &(RouteKey, Entry)) -> bool
    ensures { result ≡ is_alike old.now (selection_of new.now) }
{
    let (one, other) = (&old.entry, &new.1);
    old.peer.cmp(&new.0.peer).is_eq()
        && one.router.cmp(&other.router).is_eq()
        && one.next_hop.cmp(&other.next_hop).is_eq()
        && is_same_distance(one.distance, other.distance)
}

/// The route at the index, if it is the key's, and the selection is another neighbour's or none.
#[inline(always)]
fn rival<E: Table<RouteKey, Entry>>(
    entries: &E,
    place: usize,
    key: &RouteKey,
    selection: &Option<Selection>,
) -> Option<(RouteKey, Entry)>
    ensures other { IsSome result → is_change (peer_before selection.now) key.now.peer ≡ true }
    ensures at { IfSome result (λ route. slice_get (E.entries entries.now) place ≡ Some route) }
    ensures prefix { IfSome result (λ route. eq_by_cmp prefix_cmp route.0.prefix key.now.prefix ≡ true) }
    ensures peer { IfSome result (λ route. eq_by_cmp peer_cmp route.0.peer key.now.peer ≡ true) }
{
    if !is_others(selection, &key.peer) {
        return None;
    }
    let route = entries.at(place)?;
    if route.0.prefix.cmp(&key.prefix).is_eq() && route.0.peer.cmp(&key.peer).is_eq() {
        Some(route)
    } else {
        None
    }
}

/// Whether there is a route at the index, and it is of the prefix.
#[inline(always)]
fn has_prefix_at<E: Table<RouteKey, Entry>>(entries: &E, place: usize, prefix: &Prefix) -> bool {
    match entries.at(place) {
        Some(route) => route.0.prefix.cmp(prefix).is_eq(),
        None => false,
    }
}

/// Whether the selection is another neighbour's, or there is none.
fn is_others(selection: &Option<Selection>, peer: &Peer) -> bool
    ensures { result ≡ is_change (peer_before selection.now) peer.now }
{
    match selection {
        Some(selected) => !peer.cmp(&selected.peer).is_eq(),
        None => true,
    }
}

/// Stores the new selection of the prefix, unless it is the old one.
#[inline(always)]
pub(crate) fn replace_near<S: Table<Prefix, Selection>>(
    selections: &mut S,
    place: usize,
    prefix: Prefix,
    before: &Option<Selection>,
    after: Option<Selection>,
)
    requires before { before.now ≡ find prefix_cmp prefix (S.entries selections.old) }
    requires at { IsSome before.now → IsAt prefix (S.entries selections.old) place }
    requires gap { IsNone before.now → IsGap prefix_cmp prefix (S.entries selections.old) place }
    requires room { IsSome after → IsNone (find prefix_cmp prefix (S.entries selections.old)) → length (S.entries selections.old) < S.room selections.old }
    ensures entries { S.entries selections.new ≡ with_value prefix_cmp prefix after (S.entries selections.old) }
    ensures room { S.room selections.new ≡ S.room selections.old }
{
    if is_same_selection(before, &after) {
        return;
    }
    match (before, after) {
        (Some(_), Some(after)) => selections.replace(place, prefix, after),
        (Some(_), None) => selections.remove_at(place, &prefix),
        (None, Some(after)) => selections.insert(place, prefix, after),
        (None, None) => {}
    }
}

/// Whether the selections are the same, or both are none.
#[tactic(auto, unfolding(crate::specs::Currency::is_same_selection))]
pub(crate) fn is_same_selection(old: &Option<Selection>, new: &Option<Selection>) -> bool
    ensures { result ≡ is_same_selection old.now new.now }
{
    match (old, new) {
        (None, None) => true,
        (Some(old), Some(new)) => {
            old.peer.cmp(&new.peer).is_eq() && is_same_entry(&old.entry, &new.entry)
        }
        _ => false,
    }
}

pub(crate) fn is_same_entry(one: &Entry, other: &Entry) -> bool
    ensures { result ≡ is_same_entry one.now other.now }
{
    one.router.cmp(&other.router).is_eq()
        && is_same_distance(one.distance, other.distance)
        && one.next_hop.cmp(&other.next_hop).is_eq()
        && one.interval == other.interval
        && one.deadline == other.deadline
}

fn is_same_distance(one: Distance, other: Distance) -> bool
    ensures { result ≡ is_same_distance one other }
{
    one.seqno == other.seqno && one.metric == other.metric
}
