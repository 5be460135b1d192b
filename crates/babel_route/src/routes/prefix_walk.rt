//! A walk over the prefixes that have an entry or a selection: one merge of both tables.

ghost use Rattle.std.specs.Prelude.{◌≡◌, true, not, drop, slice_get, option_map, IsNone, IfSome, [], Some, None, if◌then◌else◌};
ghost use Rattle.std.specs.List.{list_all};
ghost use Rattle.std.specs.FinMap.{find};
ghost use Rattle.babel_value.specs.Orders.{prefix_cmp};
ghost use Rattle.babel_table.specs.Entries.{without};
ghost use Rattle.babel_route.specs.Currency.{is_current};
ghost use Rattle.babel_choice.specs.PrefixBounds.{is_before};
ghost use Rattle.babel_choice.specs.Origins.{is_own};
ghost use Rattle.babel_route.specs.PrefixWalks.{without_prefix, are_from};
ghost use Rattle.babel_route.specs.RouteLaws.{is_among};
ghost use Rattle.babel_route.specs.Selections.{prefixes_of};

use super::current::is_same_selection;
use super::lesser_prefix;
use babel_choice::{
    ChoiceInputs, Costs, Entry, Origin, RouteKey, Selection, first_from, peer_of, selection_at,
};
use babel_sources::{SourceEntry, SourcesOver};
use babel_table::Table;
use babel_value::{Prefix, Source};
use std::marker::Model;

/// A walk over the prefixes that have an entry or a selection, in ascending order. A clause sees
/// the entries and the selections that are still to come.
#[derive(Drop)]
pub struct PrefixWalk<'a, E: Table<RouteKey, Entry>, S: Table<Prefix, Selection>> {
    entries: &'a E,
    selections: &'a S,
    entry: usize,
    selection: usize,
    // An index near that of the last source; it only matters for speed.
    source: usize,
}

impl<'a, E: Table<RouteKey, Entry>, S: Table<Prefix, Selection>> Model for PrefixWalk<'a, E, S> {
    ghost use Rattle.std.specs.Prelude.{drop};
    ghost use Rattle.babel_route.specs.Selections.{RoutesValue};

    ghost Value = { RoutesValue };

    ghost view = { λ w. record { entries = drop w.entry (E.entries w.entries.now); selections = drop w.selection (S.entries w.selections.now) } };
}

impl<'a, E: Table<RouteKey, Entry>, S: Table<Prefix, Selection>> PrefixWalk<'a, E, S> {
    /// The walk from the first prefix on.
    pub(crate) fn new(entries: &'a E, selections: &'a S) -> PrefixWalk<'a, E, S>
        ensures { result ≡ record { entries = E.entries entries.now; selections = S.entries selections.now } }
    {
        PrefixWalk {
            entries,
            selections,
            entry: 0,
            selection: 0,
            source: usize::MAX,
        }
    }

    /// The least prefix that is still to come.
    pub fn prefix(&self) -> Option<Prefix>
        ensures none { IsNone result → self.now ≡ record { entries = []; selections = [] } }
        ensures some { IfSome result (λ prefix. is_among prefix (prefixes_of self.now) ≡ true) }
        ensures least { IfSome result (λ prefix. are_from prefix self.now ≡ true) }
    {
        let route = route_prefix_at(self.entries, self.entry);
        let selection = selected_prefix_at(self.selections, self.selection);
        lesser_prefix(route, selection)
    }

    /// Passes the least prefix that is still to come. Returns whether its selection is the one that
    /// a reselection would leave.
    pub fn pass<T: Table<Source, SourceEntry>, C: Costs>(
        &mut self,
        prefix: &Prefix,
        origin: Origin,
        sources: &SourcesOver<T>,
        costs: &C,
    ) -> bool
        requires { are_from prefix.now self.old ≡ true }
        ensures current { result ≡ is_current sources.now (C.cost_of costs.now) prefix.now (is_own origin) self.old }
        ensures rest { self.new ≡ without_prefix prefix.now self.old }
    {
        let (before, selection) = selection_from(self.selections, self.selection, prefix);
        let peer = peer_of(&before);
        let near = &mut self.source;
        let inputs = ChoiceInputs {
            entries: self.entries,
            sources,
            costs,
        };
        let (first, entry) = first_from(&inputs, self.entry, prefix, peer, near);
        self.entry = entry;
        self.selection = selection;
        is_same_selection(
            &before,
            &unless_own(origin, selection_at(self.entries, first)),
        )
    }
}

/// The prefix of the route at the index.
fn route_prefix_at<E: Table<RouteKey, Entry>>(entries: &E, place: usize) -> Option<Prefix>
    ensures { result ≡ option_map (λ e. e.0.prefix) (slice_get (E.entries entries.now) place) }
{
    entries.at(place).map(|route| route.0.prefix)
}

/// The prefix of the selection at the index.
fn selected_prefix_at<S: Table<Prefix, Selection>>(selections: &S, place: usize) -> Option<Prefix>
    ensures { result ≡ option_map (λ s. s.0) (slice_get (S.entries selections.now) place) }
{
    selections.at(place).map(|selection| selection.0)
}

/// The selection of the prefix, and the index after it. It is at the index `place`, or would be.
fn selection_from<S: Table<Prefix, Selection>>(
    selections: &S,
    place: usize,
    prefix: &Prefix,
) -> (Option<Selection>, usize)
    requires { list_all (λ s. not (is_before prefix.now s.0)) (drop place (S.entries selections.now)) ≡ true }
    ensures found { result.0 ≡ find prefix_cmp prefix.now (drop place (S.entries selections.now)) }
    ensures rest { drop result.1 (S.entries selections.now) ≡ without prefix_cmp prefix.now (drop place (S.entries selections.now)) }
{
    if place >= selections.len() {
        return (None, place);
    }
    match selections.at(place) {
        Some(selection) if selection.0.cmp(prefix).is_eq() => (Some(selection.1), place + 1),
        _ => (None, place),
    }
}

/// The choice at a prefix: none if the prefix is the speaker's own.
fn unless_own(origin: Origin, first: Option<Selection>) -> Option<Selection>
    ensures { result ≡ (if is_own origin then None else first) }
{
    match origin {
        Origin::Own => None,
        Origin::Learned => first,
    }
}
