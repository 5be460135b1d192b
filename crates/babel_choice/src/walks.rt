//! Walks over routes and selections.

ghost use Rattle.std.specs.Prelude.{◌≡◌, drop};
ghost use Rattle.std.specs.List.{take_while};
ghost use Rattle.babel_choice.specs.Choices.{is_of, routes_of};

use crate::{Before, Entry, RouteKey, Selection};
use babel_table::{Table, places_below, places_below_near};
use babel_value::Prefix;
use std::marker::Model;

/// The routes in the order of their keys. A clause sees the list of those that are still to come.
#[derive(Drop)]
pub struct AllRoutes<'a, T: Table<RouteKey, Entry>> {
    table: &'a T,
    place: usize,
}

impl<'a, T: Table<RouteKey, Entry>> Model for AllRoutes<'a, T> {
    ghost use Rattle.std.specs.Prelude.{drop};
    ghost use Rattle.babel_choice.specs.Routes.{RouteEntries};

    ghost Value = { RouteEntries };

    ghost view = { λ w. drop w.place (T.entries w.table.now) };
}

impl<'a, T: Table<RouteKey, Entry>> AllRoutes<'a, T> {
    /// The walk from the first route on.
    pub fn new(table: &'a T) -> AllRoutes<'a, T>
        ensures { result ≡ T.entries table.now }
    {
        AllRoutes { table, place: 0 }
    }
}

impl<'a, T: Table<RouteKey, Entry>> Iterator for AllRoutes<'a, T> {
    ghost use Rattle.std.specs.Iterator.{YieldsFirst, item_count};

    type Item = (RouteKey, Entry);

    ghost next_gives = { YieldsFirst (λ routes. routes) };

    ghost remaining = { item_count (λ routes. routes) };

    fn next(&mut self) -> Option<(RouteKey, Entry)> {
        if self.place >= self.table.len() {
            return None;
        }
        let route = self.table.at(self.place)?;
        self.place += 1;
        Some(route)
    }
}

/// The selections in the order of their prefixes. A clause sees the list of those that are still to
/// come.
#[derive(Drop)]
pub struct AllSelections<'a, T: Table<Prefix, Selection>> {
    table: &'a T,
    place: usize,
}

impl<'a, T: Table<Prefix, Selection>> Model for AllSelections<'a, T> {
    ghost use Rattle.std.specs.Prelude.{drop};
    ghost use Rattle.babel_choice.specs.Choices.{Selections};

    ghost Value = { Selections };

    ghost view = { λ w. drop w.place (T.entries w.table.now) };
}

impl<'a, T: Table<Prefix, Selection>> AllSelections<'a, T> {
    /// The walk from the first selection on.
    pub fn new(table: &'a T) -> AllSelections<'a, T>
        ensures { result ≡ T.entries table.now }
    {
        AllSelections { table, place: 0 }
    }
}

impl<'a, T: Table<Prefix, Selection>> Iterator for AllSelections<'a, T> {
    ghost use Rattle.std.specs.Iterator.{YieldsFirst, item_count};

    type Item = (Prefix, Selection);

    ghost next_gives = { YieldsFirst (λ selections. selections) };

    ghost remaining = { item_count (λ selections. selections) };

    fn next(&mut self) -> Option<(Prefix, Selection)> {
        if self.place >= self.table.len() {
            return None;
        }
        let selection = self.table.at(self.place)?;
        self.place += 1;
        Some(selection)
    }
}

/// The routes of one prefix, in the order of the neighbours. A clause sees the list of those that
/// are still to come.
#[derive(Drop)]
pub struct PrefixRoutes<'a, T: Table<RouteKey, Entry>> {
    table: &'a T,
    prefix: Prefix,
    place: usize,
}

impl<'a, T: Table<RouteKey, Entry>> Model for PrefixRoutes<'a, T> {
    ghost use Rattle.std.specs.Prelude.{drop};
    ghost use Rattle.std.specs.List.{take_while};
    ghost use Rattle.babel_choice.specs.Routes.{RouteEntries};
    ghost use Rattle.babel_choice.specs.Choices.{is_of};

    ghost Value = { RouteEntries };

    ghost view = { λ w. take_while (is_of w.prefix) (drop w.place (T.entries w.table.now)) };
}

impl<'a, T: Table<RouteKey, Entry>> PrefixRoutes<'a, T> {
    /// The walk from the first route of the prefix on.
    pub fn new(table: &'a T, prefix: Prefix) -> PrefixRoutes<'a, T>
        ensures { result ≡ routes_of prefix (T.entries table.now) }
    {
        let place = places_below(table, &Before { prefix });
        PrefixRoutes {
            table,
            prefix,
            place,
        }
    }

    /// The same. The search begins at the index, which goes to the first route of the prefix: so
    /// the routes of rising prefixes are found in one walk over the table.
    #[inline(always)]
    pub fn new_near(table: &'a T, prefix: Prefix, near: &mut usize) -> PrefixRoutes<'a, T>
        ensures { result ≡ routes_of prefix (T.entries table.now) }
    {
        let place = places_below_near(table, *near, &Before { prefix });
        *near = place;
        PrefixRoutes {
            table,
            prefix,
            place,
        }
    }
}

impl<'a, T: Table<RouteKey, Entry>> Iterator for PrefixRoutes<'a, T> {
    ghost use Rattle.std.specs.Iterator.{YieldsFirst, item_count};

    type Item = (RouteKey, Entry);

    ghost next_gives = { YieldsFirst (λ routes. routes) };

    ghost remaining = { item_count (λ routes. routes) };

    fn next(&mut self) -> Option<(RouteKey, Entry)> {
        if self.place >= self.table.len() {
            return None;
        }
        let route = self.table.at(self.place)?;
        if !is_of(&route, &self.prefix) {
            return None;
        }
        self.place += 1;
        Some(route)
    }
}

/// Whether the route is of the prefix.
pub(crate) fn is_of(route: &(RouteKey, Entry), prefix: &Prefix) -> bool
    ensures { result ≡ is_of prefix.now route.now }
{
    route.0.prefix.cmp(prefix).is_eq()
}
