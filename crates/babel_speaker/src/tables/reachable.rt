//! A walk over the prefixes that the speaker announces or that have a selected route.

ghost use Rattle.std.specs.Prelude.{◌≡◌, ◌≤◌, drop, length, map, IfSome};
ghost use Rattle.babel_value.specs.Orders.{prefix_cmp};
ghost use Rattle.babel_speaker.specs.Reaching.{reachable_of};

use crate::tables::Announced;
use babel_route::Routes;
use babel_value::Prefix;
use std::cmp::Ordering;
use std::marker::Model;

/// The prefixes that are announced or selected, in ascending order, each once: a merge of the two
/// tables. A clause sees the list of those that are still to come.
#[derive(Drop)]
pub struct Reachable<'a> {
    announced: &'a Announced,
    routes: &'a Routes,
    own: usize,
    selected: usize,
}

impl<'a> Model for Reachable<'a> {
    ghost use Rattle.std.specs.Prelude.{◌≡◌, List, drop, true};
    ghost use Rattle.std.specs.FinMap.{is_sorted};
    ghost use Rattle.babel_value.specs.Orders.{prefix_cmp};
    ghost use Rattle.babel_value.specs.Prefixes.{PrefixValue};
    ghost use Rattle.babel_speaker.specs.Reaching.{reachable_of};

    ghost Value = { List PrefixValue };

    ghost view = { λ w. reachable_of (drop w.own w.announced.now) (drop w.selected w.routes.now.selections) };

    ghost invariant = { λ w. (is_sorted prefix_cmp w.announced.now ≡ true) × (is_sorted prefix_cmp w.routes.now.selections ≡ true) };
}

impl<'a> Reachable<'a> {
    /// The walk from the first prefix on.
    pub fn new(announced: &'a Announced, routes: &'a Routes) -> Reachable<'a>
        ensures { result ≡ reachable_of announced.now routes.now.selections }
    {
        // Both tables are in order.
        let _announced = announced.len();
        let _routes = routes.len();
        Reachable {
            announced,
            routes,
            own: 0,
            selected: 0,
        }
    }
}

impl<'a> Reachable<'a> {
    /// The same walk, if no announced prefix is left in it: those of selections alone.
    #[inline(always)]
    pub fn rest(&self) -> Option<SelectedPrefixes<'a>>
        ensures { IfSome result (λ rest. rest ≡ self.now) }
    {
        match self.announced.at(self.own) {
            Some(_) => None,
            None => Some(SelectedPrefixes {
                routes: self.routes,
                place: self.selected,
            }),
        }
    }

    /// How many are still to come and have a selected route: no more than are still to come.
    pub fn at_least(&self) -> usize
        ensures { result ≤ length self.now }
    {
        let (routes, place) = (self.routes, self.selected);
        SelectedPrefixes { routes, place }.len()
    }
}

/// The order of two prefixes.
fn compare(own: &Prefix, selected: &Prefix) -> Ordering
    ensures { result ≡ prefix_cmp own.now selected.now }
{
    own.cmp(selected)
}

impl<'a> Iterator for Reachable<'a> {
    ghost use Rattle.std.specs.Iterator.{YieldsFirst, item_count};

    type Item = Prefix;

    ghost next_gives = { YieldsFirst (λ prefixes. prefixes) };

    ghost remaining = { item_count (λ prefixes. prefixes) };

    #[inline(always)]
    fn next(&mut self) -> Option<Prefix> {
        let Some(own) = self.announced.at(self.own) else {
            let selection = self.routes.selection_at(self.selected)?;
            self.selected += 1;
            return Some(selection.0);
        };
        let Some(selection) = self.routes.selection_at(self.selected) else {
            self.own += 1;
            return Some(own);
        };
        let order = compare(&own, &selection.0);
        if order.is_gt() {
            self.selected += 1;
            return Some(selection.0);
        }
        self.own += 1;
        if order.is_eq() {
            self.selected += 1;
        }
        Some(own)
    }
}

/// The prefixes that have a selected route, in ascending order. A clause sees the list of those
/// that are still to come.
#[derive(Drop)]
pub struct SelectedPrefixes<'a> {
    routes: &'a Routes,
    place: usize,
}

impl<'a> Model for SelectedPrefixes<'a> {
    ghost use Rattle.std.specs.Prelude.{List, drop, map};
    ghost use Rattle.babel_value.specs.Prefixes.{PrefixValue};

    ghost Value = { List PrefixValue };

    ghost view = { λ w. map (λ e. e.0) (drop w.place w.routes.now.selections) };
}

impl<'a> SelectedPrefixes<'a> {
    /// How many are still to come.
    pub fn len(&self) -> usize
        ensures { result ≡ length self.now }
    {
        self.routes.selection_count().saturating_sub(self.place)
    }
}

impl<'a> Iterator for SelectedPrefixes<'a> {
    ghost use Rattle.std.specs.Iterator.{YieldsFirst, item_count};

    type Item = Prefix;

    ghost next_gives = { YieldsFirst (λ prefixes. prefixes) };

    ghost remaining = { item_count (λ prefixes. prefixes) };

    #[inline(always)]
    fn next(&mut self) -> Option<Prefix> {
        let selection = self.routes.selection_at(self.place)?;
        self.place += 1;
        Some(selection.0)
    }
}
