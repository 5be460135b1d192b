//! How many places of a route table are taken: one for each entry, and one for each prefix that
//! has a selection but no entry.

ghost use Rattle.std.specs.Prelude.{◌≡◌, ◌+◌, ◌<◌, ◌≤◌, false, not, length, slice_get};
ghost use Rattle.std.specs.Option.{option_map_or};
ghost use Rattle.babel_route.specs.Rooms.{most_routes};
ghost use Rattle.babel_choice.specs.Choices.{has_entry};
ghost use Rattle.babel_route.specs.Selections.{orphans};

use super::ROUTE_PLACES;
use babel_choice::{Entry, PrefixRoutes, RouteKey, Selection};
use babel_table::Table;
use babel_value::Prefix;

/// A number that is no less than the places taken, from an earlier one: that one if it is less than
/// all places, and else what is taken. It counts only if the entries alone don't take all.
pub(crate) fn places_within<E: Table<RouteKey, Entry>, S: Table<Prefix, Selection>>(
    entries: &E,
    selections: &S,
    most: usize,
) -> usize
    requires selections { S.room selections.now ≡ most_routes }
    requires within { length (E.entries entries.now) + orphans (E.entries entries.now) (S.entries selections.now) ≤ most }
    requires most { most ≤ most_routes }
    ensures within { length (E.entries entries.now) + orphans (E.entries entries.now) (S.entries selections.now) ≤ result }
    ensures most { result ≤ most_routes }
    ensures exact { most_routes ≤ result → result ≡ length (E.entries entries.now) + orphans (E.entries entries.now) (S.entries selections.now) }
    ensures kept { most < most_routes → result ≡ most }
    ensures counted { most_routes ≤ most → result ≡ length (E.entries entries.now) + orphans (E.entries entries.now) (S.entries selections.now) }
{
    if most < ROUTE_PLACES || entries.len() >= ROUTE_PLACES {
        return most;
    }
    entries.len() + count_orphans(entries, selections)
}

/// How many prefixes have a selection but no entry: one walk over both tables.
fn count_orphans<E: Table<RouteKey, Entry>, S: Table<Prefix, Selection>>(
    entries: &E,
    selections: &S,
) -> usize
    requires { S.room selections.now ≡ most_routes }
    ensures count { result ≡ orphans (E.entries entries.now) (S.entries selections.now) }
    ensures within { result ≤ most_routes }
{
    let mut count = 0;
    let mut near = 0;
    for place in 0..selections.len() {
        if is_orphan(entries, selections, place, &mut near) {
            count += 1;
        }
    }
    count
}

/// Whether there is a selection at the index, and its prefix has no entry. The search for an entry
/// begins near the index `near`, which goes next to it.
fn is_orphan<E: Table<RouteKey, Entry>, S: Table<Prefix, Selection>>(
    entries: &E,
    selections: &S,
    place: usize,
    near: &mut usize,
) -> bool
    ensures { result ≡ option_map_or (λ s. not (has_entry (E.entries entries.now) s.0)) (slice_get (S.entries selections.now) place) false }
{
    match selections.at(place) {
        Some(selection) => !has_entry(entries, selection.0, near),
        None => false,
    }
}

/// Whether the prefix has an entry. The search begins near the index, which goes next to it.
fn has_entry<E: Table<RouteKey, Entry>>(entries: &E, prefix: Prefix, near: &mut usize) -> bool
    ensures { result ≡ has_entry (E.entries entries.now) prefix }
{
    match PrefixRoutes::new_near(entries, prefix, near).next() {
        Some(_) => true,
        None => false,
    }
}
