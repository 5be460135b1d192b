//! Requests for a greater seqno while a route would be selected if it were feasible (RFC 8966,
//! section 3.8.2.2).

ghost use Rattle.std.specs.Prelude.{◌≡◌, true, Some, slice_get};
ghost use Rattle.std.specs.List.{list_any};
ghost use Rattle.babel_choice.specs.Choices.{routes_of};
ghost use Rattle.babel_state.specs.Requesting.{selected_metric, is_wanted, request_for_route, request_for_wanted, seqnos_requested};
ghost use Rattle.babel_state.specs.Reselection.{is_unfeasible};

use crate::input::causes::UnfeasibleUpdate;
use crate::output::queueing::is_unfeasible_near;
use crate::state::Core;
use babel_choice::{Cursor, Entry, RouteKey};
use babel_value::{Metric, Prefix, Source};

impl Core {
    /// The metric of the prefix's selection by the link's present cost, or infinity if none is
    /// selected. The search begins near the index of a selection.
    fn selected_metric(&self, prefix: &Prefix, near: &mut usize) -> Metric
        ensures { result ≡ selected_metric prefix.now self.now }
    {
        match self.selected_near(prefix, near) {
            Some(selection) => {
                let advertised = selection.entry.distance.metric;
                advertised.add(self.cost(&selection.peer))
            }
            None => Metric::INFINITE,
        }
    }

    /// Whether the route would be selected if it were feasible: its prefix isn't announced here,
    /// and its metric by the link's present cost is less than that of the selection. The searches
    /// begin at the cursor.
    fn is_wanted(&self, route: &(RouteKey, Entry), cursor: &mut Cursor) -> bool
        ensures { result ≡ is_wanted self.now route.now }
    {
        let prefix = &route.0.prefix;
        if !is_unfeasible_near(route, &self.sources, &mut cursor.source) || self.announces(prefix) {
            return false;
        }
        let metric = route.1.distance.metric.add(self.cost(&route.0.peer));
        metric.0 < self.selected_metric(prefix, &mut cursor.selection).0
    }

    /// Whether a route is wanted.
    pub(crate) fn wants_seqnos(&self) -> bool
        ensures { result ≡ list_any (is_wanted self.now) self.now.routes.entries }
    {
        let mut cursor = Cursor::new();
        for route in self.routes.routes() {
            if self.is_wanted(&route, &mut cursor) {
                return true;
            }
        }
        false
    }

    /// Requests a greater seqno of the source of an unfeasible route: of the neighbours of all
    /// unfeasible ones if none is selected, and else of its own. The searches begin at the cursor.
    fn request_for_route(&mut self, now: u64, route: &(RouteKey, Entry), cursor: &mut Cursor)
        requires unfeasible { list_any (is_unfeasible self.old.sources) (routes_of route.now.0.prefix self.old.routes.entries) ≡ true }
        ensures { self.new ≡ request_for_route now route.now self.old }
    {
        let router = route.1.router;
        if self
            .selected_near(&route.0.prefix, &mut cursor.selection)
            .is_some()
        {
            let update = UnfeasibleUpdate {
                peer: route.0.peer,
                router,
            };
            self.request_for_update(now, &route.0.prefix, &update);
        } else {
            let source = Source {
                prefix: route.0.prefix,
                router,
            };
            self.request_for_lost(now, source, route.1.distance.seqno, cursor);
        }
    }

    /// Requests a greater seqno of the source of the route at the place, if that is wanted, unless
    /// one is pending already or can't be recorded.
    fn request_for_wanted(&mut self, now: u64, route: &(RouteKey, Entry), place: usize)
        requires there { slice_get self.old.routes.entries place ≡ Some route.now }
        ensures state { self.new ≡ request_for_wanted now route.now self.old }
        ensures entries { self.new.routes.entries ≡ self.old.routes.entries }
    {
        let source = Source {
            prefix: route.0.prefix,
            router: route.1.router,
        };
        let mut cursor = Cursor::new();
        cursor.entry = place;
        cursor.selection = place;
        if !self.is_wanted(route, &mut cursor) || self.requests.has_no_room(&source) {
            return;
        }
        self.request_for_route(now, route, &mut cursor);
    }

    /// Requests a greater seqno of the source of each wanted route.
    pub(crate) fn request_seqnos(&mut self, now: u64)
        ensures { self.new ≡ seqnos_requested now self.old }
    {
        for place in 0..self.routes.len() {
            if let Some(found) = self.routes.at(place) {
                let key = RouteKey {
                    prefix: found.0,
                    peer: found.1,
                };
                self.request_for_wanted(now, &(key, found.2), place);
            }
        }
    }
}
