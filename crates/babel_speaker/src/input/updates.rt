//! Updates and retractions of a neighbour (RFC 8966, section 3.5.3).

ghost use Rattle.std.specs.Prelude.{◌≡◌, false, Some, IsTrue, IsFalse, IsSome, IsNone, IfSome, IfOk, OnErr, is_err, is_none, is_some, if◌then◌else◌};
ghost use Rattle.babel_choice.specs.Routes.{has_routes_from, retracted, retracted_all};
ghost use Rattle.babel_route.specs.declared.routes.changes.Report.{Report};
ghost use Rattle.babel_route.specs.SelectionChanges.{selection_change};
ghost use Rattle.babel_sources.specs.Distances.{is_feasible};
ghost use Rattle.babel_state.specs.declared.notes.Verdict.TheVariants.{TableFull};
ghost use Rattle.babel_state.specs.CurrentSelections.{AreCurrent};
ghost use Rattle.babel_state.specs.KeptRoutes.{KeepsRoutes};
ghost use Rattle.babel_state.specs.Reselection.{select, reselect};
ghost use Rattle.babel_state.specs.State.{entry_at, pair_at, selected_at, with_entries};
ghost use Rattle.babel_state.specs.Updates.{store, is_satisfied, advertise_if_selected, satisfy_request, judge, is_route_too_many, handle_update, handle_retraction, handle_retract_all};
ghost use Rattle.babel_speaker.specs.LinkChanges.{IsCurrentButAt};

use crate::hints::Hints;
use crate::input::causes::UnfeasibleUpdate;
use crate::input::losses::Loss;
use crate::state::Core;
use crate::versions::is_other;
use babel_choice::{Cursor, ReceivedUpdate, RouteKey};
use babel_route::{Full, OnRepeat, Refreshed, Report, SelectionChange};
use babel_state::Verdict;
use babel_value::{Distance, Peer, Prefix, Seqno, Source};

/// Whether an update is feasible against the distance of its source (RFC 8966, section 3.5.1).
pub(crate) fn is_feasible(pair: &Distance, update: &Distance) -> bool
    ensures { result ≡ is_feasible (Some pair.now) update.now }
{
    let (pair, update) = (*pair, *update);
    let metric = update.metric;
    !metric.is_finite() || update.better(pair)
}

impl Core {
    /// Whether the pending request for the source asks for no more than this seqno.
    fn is_satisfied(&self, source: &Source, seqno: Seqno) -> bool
        ensures { result ≡ is_satisfied source.now seqno self.now }
    {
        match self.requests.get(source) {
            Some(request) => !seqno.less(request.seqno),
            None => false,
        }
    }

    /// Queues an update of the prefix to all if it has a selected route.
    fn advertise_if_selected(&mut self, prefix: &Prefix)
        ensures { self.new ≡ advertise_if_selected prefix.now self.old }
    {
        if self.selected(prefix).is_some() {
            self.queue_updates_to_all(prefix);
        }
    }

    /// Removes the pending request for the source if a feasible update of this seqno satisfies it,
    /// and passes the update on (RFC 8966, section 3.2.7).
    #[tactic(auto, unfolding(babel_state::specs::Updates::satisfy_request))]
    fn satisfy_request(&mut self, source: &Source, seqno: Seqno)
        ensures { self.new ≡ satisfy_request source.now seqno self.old }
    {
        if self.is_satisfied(source, seqno) {
            self.requests.remove(source);
            self.advertise_if_selected(&source.prefix);
        }
    }

    /// Stores the update. If it repeats what its neighbour advertised and the speaker is settled,
    /// so that all selections are current, only deadlines are set again, which is what selecting
    /// again would leave: then it returns what changed. The search begins at the cursor.
    fn store_update(
        &mut self,
        now: u64,
        update: &ReceivedUpdate,
        hints: &mut Hints,
    ) -> Result<Refreshed, Full>
        requires settled { IsTrue hints.old.settled → AreCurrent self.old }
        ensures settled { hints.new.settled ≡ hints.old.settled }
        ensures full { is_err result ≡ is_route_too_many update.now.source.prefix update.now.peer self.old }
        ensures err { OnErr result (self.new ≡ self.old) }
        ensures stored { IfOk result (λ r. IsNone r → self.new ≡ store now update.now.peer update.now.source.prefix update.now.source.router update.now.next_hop update.now.distance update.now.interval self.old) }
        ensures refreshed { IfOk result (λ r. IsSome r → self.new ≡ select update.now.source.prefix (store now update.now.peer update.now.source.prefix update.now.source.router update.now.next_hop update.now.distance update.now.interval self.old)) }
        ensures change { IfOk result (λ r. IfSome r (λ change. change ≡ selection_change (selected_at update.now.source.prefix self.old) (selected_at update.now.source.prefix self.new))) }
    {
        let on_repeat = if hints.settled {
            OnRepeat::Refresh
        } else {
            OnRepeat::Store
        };
        self.routes
            .store_near(now, update, on_repeat, &mut hints.cursor)
    }

    /// Selects the route of the prefix again after a change of the neighbour's route to it. If the
    /// speaker was settled before, the selection is current but for that neighbour's routes.
    /// Returns what changed.
    #[inline(always)]
    fn select_after(&mut self, prefix: &Prefix, peer: &Peer, hints: &mut Hints) -> SelectionChange
        requires others { IsTrue hints.old.settled → IsCurrentButAt peer.now prefix.now self.old }
        ensures settled { hints.new.settled ≡ hints.old.settled }
        ensures state { self.new ≡ select prefix.now self.old }
        ensures change { result ≡ selection_change (selected_at prefix.now self.old) (selected_at prefix.now self.new) }
    {
        if hints.settled && self.routes.are_shared() {
            return self.select_shared(prefix, peer, &mut hints.cursor);
        }
        self.select_near(prefix, &mut hints.cursor)
    }

    /// The same where some prefixes have routes of several neighbours: a selection that stays is
    /// compared with this neighbour's route alone. The searches begin at the cursor, which is at
    /// that route.
    #[inline(never)]
    fn select_shared(
        &mut self,
        prefix: &Prefix,
        peer: &Peer,
        cursor: &mut Cursor,
    ) -> SelectionChange
        requires others { IsCurrentButAt peer.now prefix.now self.old }
        ensures state { self.new ≡ select prefix.now self.old }
        ensures change { result ≡ selection_change (selected_at prefix.now self.old) (selected_at prefix.now self.new) }
    {
        let known = self.known_cost(peer);
        let kept = self.kept_selection(prefix, &known, cursor);
        if kept.is_some() {
            return SelectionChange::kept(kept);
        }
        self.select_near(prefix, cursor)
    }

    /// Stores the update and selects the route of its prefix again. Returns what changed, or `None`
    /// if the route is new and all places are taken. The searches begin at the cursor.
    fn store_and_select(
        &mut self,
        now: u64,
        update: &ReceivedUpdate,
        hints: &mut Hints,
    ) -> Option<SelectionChange>
        requires settled { IsTrue hints.old.settled → AreCurrent self.old }
        ensures settled { hints.new.settled ≡ hints.old.settled }
        ensures full { is_none result ≡ is_route_too_many update.now.source.prefix update.now.peer self.old }
        ensures none { IsNone result → self.new ≡ self.old }
        ensures state { IsSome result → self.new ≡ select update.now.source.prefix (store now update.now.peer update.now.source.prefix update.now.source.router update.now.next_hop update.now.distance update.now.interval self.old) }
        ensures change { IfSome result (λ change. change ≡ selection_change (selected_at update.now.source.prefix self.old) (selected_at update.now.source.prefix self.new)) }
    {
        match self.store_update(now, update, hints) {
            Ok(None) => {}
            Ok(refreshed) => return refreshed,
            Err(_) => return None,
        }
        let route = hints.cursor.entry;
        let selected = self.select_after(&update.source.prefix, &update.peer, hints);
        // The choice leaves the cursor after the routes of the prefix. The next update begins at
        // this one's route.
        hints.cursor.entry = route;
        Some(selected)
    }

    /// Stores an update and judges it against the distance of its source, which that doesn't
    /// change. So the source of an update that is refused is not looked up. If the hints aren't
    /// `changed` then, the selected routes are reported as before.
    #[tactic(auto, unfolding(babel_state::specs::Reselection::reselect))]
    fn store_and_judge(&mut self, now: u64, update: &ReceivedUpdate, hints: &mut Hints) -> Verdict
        requires settled { IsTrue hints.old.settled → AreCurrent self.old }
        ensures settled { hints.new.settled ≡ hints.old.settled }
        ensures kept { IsFalse hints.new.changed → KeepsRoutes self.old self.new }
        ensures state { (self.new, result) ≡ (if is_route_too_many update.now.source.prefix update.now.peer self.old then (self.old, TableFull) else judge now update.now.peer update.now.source.prefix update.now.source.router update.now.distance (pair_at update.now.source.prefix update.now.source.router self.old) (store now update.now.peer update.now.source.prefix update.now.source.router update.now.next_hop update.now.distance update.now.interval self.old)) }
    {
        let source = &update.source;
        let Some(change) = self.store_and_select(now, update, hints) else {
            return Verdict::TableFull;
        };
        hints.changed = is_other(change.report);
        let near = &mut hints.cursor.source;
        if let Some(pair) = self.sources.pair_near(source, near) {
            if !is_feasible(&pair, &update.distance) {
                let cause = UnfeasibleUpdate {
                    peer: update.peer,
                    router: source.router,
                };
                let cursor = &mut hints.cursor;
                self.follow_up(now, Some(cause), &source.prefix, &change, cursor);
                return Verdict::Unfeasible(pair);
            }
        }
        let cursor = &mut hints.cursor;
        self.follow_up(now, None, &source.prefix, &change, cursor);
        self.satisfy_request(source, update.distance.seqno);
        Verdict::Taken
    }

    /// Handles an update with a finite metric (RFC 8966, section 3.5.3). If the speaker is settled,
    /// all selections are current, and an update that repeats what is known takes no new choice.
    /// The searches begin at the cursor, which goes to the prefix: the updates of a datagram mostly
    /// are in the order of their prefixes. If the hints aren't `changed` then, the selected routes
    /// are reported as before.
    #[inline(never)]
    #[tactic(auto, unfolding(babel_state::specs::Updates::handle_update))]
    pub fn handle_update(&mut self, now: u64, update: &ReceivedUpdate, hints: &mut Hints) -> Verdict
        requires settled { IsTrue hints.old.settled → AreCurrent self.old }
        ensures settled { hints.new.settled ≡ hints.old.settled }
        ensures kept { IsFalse hints.new.changed → KeepsRoutes self.old self.new }
        ensures state { (self.new, result) ≡ handle_update now update.now.peer update.now.source.prefix update.now.source.router update.now.next_hop update.now.distance update.now.interval self.old }
    {
        if update.source.router.cmp(&self.router).is_eq() {
            hints.own.hear(&hints.cursor);
            return Verdict::OwnRouterId;
        }
        self.store_and_judge(now, update, hints)
    }

    /// Makes the metric of the neighbour's route infinite. `false` if it has none. The search
    /// begins at the cursor.
    #[inline(never)]
    fn store_retraction(
        &mut self,
        now: u64,
        prefix: &Prefix,
        peer: &Peer,
        hints: &mut Hints,
    ) -> bool
        ensures settled { hints.new.settled ≡ hints.old.settled }
        ensures found { result ≡ is_some (entry_at prefix.now peer.now self.old) }
        ensures state { self.new ≡ with_entries (retracted now prefix.now peer.now self.old.routes.entries) self.old }
    {
        let key = RouteKey {
            prefix: *prefix,
            peer: *peer,
        };
        self.routes.retract_near(now, &key, &mut hints.cursor)
    }

    /// Selects the route of the prefix again once the neighbour's route to it is retracted, and
    /// does what follows from a change. Returns whether the same is reported of the prefix's
    /// selected route.
    #[inline(never)]
    #[tactic(auto, unfolding(babel_state::specs::Reselection::reselect))]
    fn reselect_retracted(
        &mut self,
        now: u64,
        prefix: &Prefix,
        peer: &Peer,
        hints: &mut Hints,
    ) -> Report
        requires others { IsTrue hints.old.settled → IsCurrentButAt peer.now prefix.now self.old }
        ensures settled { hints.new.settled ≡ hints.old.settled }
        ensures state { self.new ≡ reselect now None prefix.now self.old }
        ensures kept { result ≡ Report.Alike → KeepsRoutes self.old self.new }
    {
        let change = self.select_after(prefix, peer, hints);
        self.follow_up(now, None, prefix, &change, &mut hints.cursor);
        change.report
    }

    /// Handles a retraction of a prefix (RFC 8966, section 3.5.3). If the hints aren't `changed`
    /// then, the selected routes are reported as before.
    #[tactic(auto, unfolding(babel_state::specs::Updates::handle_retraction))]
    pub fn handle_retraction(
        &mut self,
        now: u64,
        peer: &Peer,
        prefix: &Prefix,
        hints: &mut Hints,
    ) -> Verdict
        requires settled { IsTrue hints.old.settled → AreCurrent self.old }
        ensures settled { hints.new.settled ≡ hints.old.settled }
        ensures state { (self.new, result) ≡ handle_retraction now peer.now prefix.now self.old }
        ensures kept { IsFalse hints.new.changed → KeepsRoutes self.old self.new }
    {
        if self.store_retraction(now, prefix, peer, hints) {
            let report = self.reselect_retracted(now, prefix, peer, hints);
            hints.changed = is_other(report);
            Verdict::Taken
        } else {
            Verdict::NoEntry
        }
    }

    /// Makes the metric of each route of the neighbour infinite. `false` if it has none.
    fn store_retractions(&mut self, now: u64, peer: &Peer) -> bool
        ensures found { result ≡ has_routes_from peer.now self.old.routes.entries }
        ensures state { self.new ≡ with_entries (retracted_all now peer.now self.old.routes.entries) self.old }
    {
        self.routes.retract_all(now, peer)
    }

    /// Handles a retraction of all that a neighbour advertised (RFC 8966, section 4.6.9). A settled
    /// speaker looks only at the selected routes, of which those of the neighbour are lost.
    #[tactic(auto, using(babel_route::proofs::RetractionLemmas::nothing_retracted, crate::proofs::Losses::retracted_unless), unfolding(babel_state::specs::Updates::handle_retract_all))]
    pub fn handle_retract_all(&mut self, now: u64, peer: &Peer, hints: &mut Hints) -> Verdict
        requires settled { IsTrue hints.old.settled → AreCurrent self.old }
        ensures settled { hints.new.settled ≡ hints.old.settled }
        ensures state { (self.new, result) ≡ handle_retract_all now peer.now self.old }
    {
        if !self.store_retractions(now, peer) {
            return Verdict::NoEntry;
        }
        if hints.settled {
            self.reselect_lost(now, &Loss::Neighbour(*peer));
        } else {
            self.reselect_all(now, &mut hints.scratch);
        }
        Verdict::Taken
    }
}
