//! Room for a list of prefixes in ascending order, which some calls need while they run.

ghost use Rattle.std.specs.Prelude.{◌≡◌, ◌↔◌, ◌≤◌, ◌<◌, ◌+◌, ◌++◌, [], length, map, IfOk, IsTrue};
ghost use Rattle.std.specs.FinMap.{put, is_sorted};
ghost use Rattle.babel_value.specs.Orders.{prefix_cmp};
ghost use Rattle.babel_value.specs.Prefixes.{PrefixValue};
ghost use Rattle.babel_route.specs.Rooms.{most_listed_prefixes, most_routes};
ghost use Rattle.babel_choice.specs.RouteKeys.{route_cmp};
ghost use Rattle.babel_state.specs.Sameness.{has_prefix};
ghost use Rattle.babel_state.specs.State.{gathered, prefixes_in};
ghost use Rattle.babel_speaker.specs.StalePrefixes.{is_stale};

use crate::tables::{Announced, Prefixes};
use babel_choice::Costs;
use babel_route::{PREFIX_PLACES, Routes};
use babel_sources::Sources;
use babel_table::{SortedTable, Table, put_near};
use babel_value::{Memory, Prefix};
use std::alloc::Global;
use std::marker::Model;

/// Room for a set of at most `PREFIX_PLACES` prefixes.
#[derive(Drop)]
pub struct Scratch {
    table: SortedTable<Prefix, ()>,
    // An index near that of the prefix that was added last; it only matters for speed.
    near: usize,
}

impl Model for Scratch {
    ghost use Rattle.std.specs.Prelude.{◌≡◌};
    ghost use Rattle.babel_route.specs.Rooms.{most_listed_prefixes};
    ghost use Rattle.babel_state.specs.State.{PrefixSet};

    ghost Value = { PrefixSet };

    ghost view = { λ a. a.table.entries.items };

    ghost invariant = { λ a. a.table.places ≡ most_listed_prefixes };
}

impl Scratch {
    /// An empty set, with its whole room.
    pub fn new(alloc: Global) -> Result<Scratch, Memory>
        ensures { IfOk result (λ scratch. scratch ≡ []) }
    {
        let table = SortedTable::with_room(alloc, PREFIX_PLACES)?;
        Ok(Scratch { table, near: 0 })
    }

    /// The prefixes of the set.
    pub fn prefixes(&self) -> Prefixes<'_>
        ensures { result ≡ prefixes_in self.now }
    {
        Prefixes::new(&self.table)
    }

    /// Whether it has no prefix.
    pub fn is_empty(&self) -> bool
        ensures { IsTrue result ↔ (self.now ≡ []) }
    {
        self.table.len() == 0
    }

    /// Empties the set.
    fn clear(&mut self)
        ensures { self.new ≡ [] }
    {
        self.table.clear();
        self.near = 0;
    }

    /// Adds a prefix. Prefixes that come in ascending order are added in one pass.
    fn insert(&mut self, prefix: Prefix)
        requires room { length self.old < most_listed_prefixes }
        ensures prefixes { self.new ≡ put prefix_cmp prefix tt self.old }
        ensures few { length self.new ≤ length self.old + 1 }
    {
        put_near(&mut self.table, &mut self.near, prefix, ());
    }

    /// Adds the prefix of each selection.
    fn insert_selections(&mut self, routes: &Routes)
        requires room { length self.old + most_routes ≤ most_listed_prefixes }
        ensures prefixes { self.new ≡ gathered (map (λ e. e.0) routes.now.selections) self.old }
    {
        for selection in routes.selections() {
            self.insert(selection.0);
        }
    }

    /// Adds the announced prefixes.
    fn insert_announced(&mut self, announced: &Announced)
        requires room { length self.old + length announced.now ≤ most_listed_prefixes }
        ensures prefixes { self.new ≡ gathered (prefixes_in announced.now) self.old }
        ensures few { length self.new ≤ length self.old + length announced.now }
    {
        for prefix in announced.prefixes() {
            self.insert(prefix);
        }
    }

    /// Adds the prefixes whose selection isn't current.
    fn insert_stale<C: Costs>(
        &mut self,
        routes: &Routes,
        announced: &Announced,
        sources: &Sources,
        costs: &C,
    )
        requires empty { self.old ≡ [] }
        ensures stale { (prefix : PrefixValue) → has_prefix prefix (prefixes_in self.new) ≡ is_stale sources.now (C.cost_of costs.now) announced.now routes.now prefix }
        ensures sorted { IsTrue (is_sorted prefix_cmp self.new) }
        ensures routes_in_order { IsTrue (is_sorted route_cmp routes.now.entries) }
        ensures selections_in_order { IsTrue (is_sorted prefix_cmp routes.now.selections) }
    {
        let mut walk = routes.prefixes();
        while let Some(prefix) = walk.prefix() {
            let origin = announced.origin(&prefix);
            if !walk.pass(&prefix, origin, sources, costs) {
                self.insert(prefix);
            }
        }
    }

    /// Makes the set that of the prefixes whose selection isn't current. It is one merge of the
    /// entries and the selections.
    pub fn gather_stale<C: Costs>(
        &mut self,
        routes: &Routes,
        announced: &Announced,
        sources: &Sources,
        costs: &C,
    )
        ensures in_order { IsTrue (is_sorted prefix_cmp self.new) }
        ensures stale { (prefix : PrefixValue) → has_prefix prefix (prefixes_in self.new) ≡ is_stale sources.now (C.cost_of costs.now) announced.now routes.now prefix }
        ensures routes_in_order { IsTrue (is_sorted route_cmp routes.now.entries) }
        ensures selections_in_order { IsTrue (is_sorted prefix_cmp routes.now.selections) }
    {
        self.clear();
        self.insert_stale(routes, announced, sources, costs);
    }

    /// Makes the set that of the prefixes that are announced or selected.
    #[tactic(auto, using(crate::proofs::Gathering::gathered_both))]
    pub fn gather_reachable(&mut self, announced: &Announced, routes: &Routes)
        ensures { self.new ≡ gathered (prefixes_in announced.now ++ map (λ e. e.0) routes.now.selections) [] }
    {
        let _announced = announced.len();
        self.clear();
        self.insert_announced(announced);
        self.insert_selections(routes);
    }
}
