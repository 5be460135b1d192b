//! Route selection and what follows from it: triggered updates and requests for a seqno (RFC 8966,
//! sections 3.6, 3.7.2 and 3.8.2).

ghost use Rattle.std.specs.Prelude.{◌≡◌, [], ◌∷◌, Option, None, IsTrue, IsFalse, IsSome};
ghost use Rattle.babel_choice.specs.declared.entries.Selection.{Selection};
ghost use Rattle.std.specs.List.{list_any};
ghost use Rattle.babel_choice.specs.Choices.{routes_of, peer_before};
ghost use Rattle.babel_choice.specs.Origins.{is_own};
ghost use Rattle.babel_route.specs.declared.routes.changes.Report.{Report};
ghost use Rattle.babel_route.specs.SelectionChanges.{origin_change, selection_change};
ghost use Rattle.babel_sources.specs.Sources.{pair_of};
ghost use Rattle.babel_state.specs.declared.requests.Resend.TheVariants.{Unfeasible};
ghost use Rattle.babel_state.specs.Limits.{request_hops};
ghost use Rattle.babel_state.specs.Reselection.{UnfeasibleUpdate, queue, updates_to_all, update_to, is_unfeasible, request_seqno, unfeasible_peers, seqno_after, request_for_lost, is_selected_peer, request_for_update, request_from_sender, follow_up, select, reselect, reselect_each, reselect_all};
ghost use Rattle.babel_state.specs.State.{announces, cost_at, prefixes_in, selected_at};
ghost use Rattle.babel_state.specs.CurrentSelections.{AreCurrent};
ghost use Rattle.babel_state.specs.KeptRoutes.{KeepsRoutes};
ghost use Rattle.babel_speaker.specs.LinkChanges.{prefixes_from, AreCurrentBut, AreOthersCurrent, IsCurrentButAt};
ghost use Rattle.babel_speaker.specs.declared.input.losses.Loss.TheVariants.{Neighbour};
ghost use Rattle.babel_speaker.specs.declared.tables.link_costs.LinkChange.TheVariants.{Nothing, Cost, Routes};
ghost use Rattle.babel_speaker.specs.Losses.{is_lost, AreCurrentUnless};

use crate::hints::Hints;
use crate::input::causes::UnfeasibleUpdate;
use crate::input::losses::Loss;
use crate::input::selection_changes::{is_selected_peer, seqno_after};
use crate::output::queueing::{has_unfeasible, queue_requests_to_unfeasible, queue_updates_to_all};
use crate::state::Core;
use crate::tables::{KnownCost, KnownCosts, LinkChange, LinkCosts, Scratch, SeqnoRequest};
use babel_choice::{Cursor, Origin, RouteKey};
use babel_route::{OriginChange, Report, SelectionChange};
use babel_state::{Item, REQUEST_HOPS, Resend, Target};
use babel_value::{Peer, Prefix, Seqno, Source};

/// A second cursor, one entry after this one: mostly at the first route of the next prefix. A
/// search that moves this one past those routes leaves it.
fn at_next_prefix(cursor: &Cursor) -> Cursor {
    Cursor {
        entry: cursor.entry.wrapping_add(1),
        selection: cursor.selection,
        source: cursor.source,
    }
}

impl Core {
    /// Queues an item.
    pub fn queue(&mut self, item: Item)
        ensures { self.new ≡ queue (item ∷ []) self.old }
    {
        self.pending.push(item);
    }

    /// Queues an update of the prefix to all on each interface.
    pub fn queue_updates_to_all(&mut self, prefix: &Prefix)
        ensures { self.new ≡ queue (updates_to_all prefix.now self.old) self.old }
    {
        queue_updates_to_all(&mut self.pending, self.interfaces.len(), *prefix);
    }

    /// Queues an update of the prefix to one neighbour.
    pub(crate) fn queue_update_to(&mut self, peer: &Peer, prefix: &Prefix)
        ensures { self.new ≡ queue (update_to peer.now prefix.now ∷ []) self.old }
    {
        let target = Target {
            iface: peer.iface,
            to: Some(peer.addr),
        };
        self.pending.push(Item::Update {
            target,
            prefix: *prefix,
        });
    }

    /// Records a request for a seqno and queues it to one neighbour, unless it is redundant (RFC
    /// 8966, section 3.8.2.1).
    #[tactic(auto, unfolding(babel_state::specs::Reselection::request_seqno))]
    pub(crate) fn request_seqno_from(
        &mut self,
        now: u64,
        request: &SeqnoRequest,
        resend: Resend,
        peer: Peer,
    )
        ensures { self.new ≡ request_seqno now request.now.source request.now.seqno resend request.now.hops (peer ∷ []) self.old }
    {
        let SeqnoRequest {
            source,
            seqno,
            hops,
        } = *request;
        if self.requests.is_redundant(&source, seqno) {
            return;
        }
        self.requests.record(now, source, seqno, resend);
        self.pending.push(Item::Request {
            peer,
            source,
            seqno,
            hops,
        });
    }

    /// Selects the route of the prefix again, which has this origin (RFC 8966, section 3.6), and
    /// returns what changed. The searches begin at the cursor, which goes to the next prefix.
    #[inline(always)]
    pub(crate) fn select_with(
        &mut self,
        prefix: &Prefix,
        origin: Origin,
        cursor: &mut Cursor,
    ) -> SelectionChange
        requires { is_own origin ≡ announces prefix.now self.old }
        ensures state { self.new ≡ select prefix.now self.old }
        ensures change { result ≡ selection_change (selected_at prefix.now self.old) (selected_at prefix.now self.new) }
    {
        let costs = LinkCosts::new(&self.interfaces, &self.neighbours);
        self.routes
            .select_changed(prefix, origin, &self.sources, &costs, cursor)
    }

    /// The same, and its origin is looked up.
    #[inline(always)]
    pub(crate) fn select_near(&mut self, prefix: &Prefix, cursor: &mut Cursor) -> SelectionChange
        ensures state { self.new ≡ select prefix.now self.old }
        ensures change { result ≡ selection_change (selected_at prefix.now self.old) (selected_at prefix.now self.new) }
    {
        let origin = self.origin(prefix);
        self.select_with(prefix, origin, cursor)
    }

    /// Requests a greater seqno of a lost route's source from the neighbours of all unfeasible
    /// routes to its prefix, unless that is redundant: one more than that of its pair, or than the
    /// lost one if it has no pair (RFC 8966, section 3.8.2.1). Returns whether a route is
    /// unfeasible; if not, nothing changed. The searches begin at the cursor.
    #[tactic(auto, unfolding(babel_state::specs::Reselection::request_seqno, babel_state::specs::Reselection::unfeasible_peers))]
    pub(crate) fn request_for_lost(
        &mut self,
        now: u64,
        source: Source,
        lost: Seqno,
        cursor: &mut Cursor,
    ) -> bool
        ensures found { result ≡ list_any (is_unfeasible self.old.sources) (routes_of source.prefix self.old.routes.entries) }
        ensures requested { IsTrue result → self.new ≡ request_seqno now source (seqno_after (pair_of source self.old.sources) lost) Unfeasible request_hops (unfeasible_peers source.prefix self.old) self.old }
        ensures none { IsFalse result → self.new ≡ self.old }
    {
        let pair = self.sources.pair_near(&source, &mut cursor.source);
        let seqno = seqno_after(pair, lost);
        if self.requests.is_redundant(&source, seqno) {
            return has_unfeasible(&self.routes, &self.sources, &source.prefix, cursor);
        }
        let request = SeqnoRequest {
            source,
            seqno,
            hops: REQUEST_HOPS,
        };
        let (pending, routes, sources) = (&mut self.pending, &self.routes, &self.sources);
        if !queue_requests_to_unfeasible(pending, routes, sources, &request, &pair, cursor) {
            return false;
        }
        self.requests.record(now, source, seqno, Resend::Unfeasible);
        true
    }

    /// Requests a greater seqno from the sender of an unfeasible update (RFC 8966, section
    /// 3.8.2.2).
    pub(crate) fn request_for_update(
        &mut self,
        now: u64,
        prefix: &Prefix,
        update: &UnfeasibleUpdate,
    )
        ensures { self.new ≡ request_for_update now prefix.now update.now self.old }
    {
        let source = Source {
            prefix: *prefix,
            router: update.router,
        };
        if let Some(pair) = self.pair(&source) {
            let peer = update.peer;
            let request = SeqnoRequest {
                source,
                seqno: pair.seqno.next(),
                hops: REQUEST_HOPS,
            };
            self.request_seqno_from(now, &request, Resend::Neighbour(peer), peer);
        }
    }

    /// The same if the update's sender was the selected neighbour.
    #[inline(always)]
    fn request_from_sender(
        &mut self,
        now: u64,
        cause: Option<UnfeasibleUpdate>,
        prefix: &Prefix,
        before: Option<Peer>,
    )
        ensures { (old : Option Selection) → before ≡ peer_before old → self.new ≡ request_from_sender now cause prefix.now old self.old }
    {
        if let Some(update) = cause {
            if is_selected_peer(&update.peer, before) {
                self.request_for_update(now, prefix, &update);
            }
        }
    }

    /// What follows from a change of the route's origin: a route that is new, that is lost or whose
    /// router-id changed is advertised at once, and a greater seqno of a lost one is requested if
    /// it may come back by that (RFC 8966, sections 3.7.2 and 3.8.2.1). Returns whether it is
    /// requested.
    #[inline(always)]
    pub(crate) fn follow_origin(
        &mut self,
        now: u64,
        prefix: &Prefix,
        change: OriginChange,
        cursor: &mut Cursor,
    ) -> bool
        ensures requested { IsTrue result → (cause : Option UnfeasibleUpdate) (old new : Option Selection) → change ≡ origin_change old new → self.new ≡ follow_up now cause prefix.now old new self.old }
        ensures advertised { IsFalse result → (cause : Option UnfeasibleUpdate) (old new : Option Selection) → change ≡ origin_change old new → request_from_sender now cause prefix.now old self.new ≡ follow_up now cause prefix.now old new self.old }
    {
        match change {
            OriginChange::Same => false,
            OriginChange::New => {
                self.queue_updates_to_all(prefix);
                false
            }
            OriginChange::Lost { router, seqno } => {
                self.queue_updates_to_all(prefix);
                if self.announces(prefix) {
                    return false;
                }
                let source = Source {
                    prefix: *prefix,
                    router,
                };
                self.request_for_lost(now, source, seqno, cursor)
            }
        }
    }

    /// What follows from a change of the prefix's selection after an input, which was this
    /// unfeasible update or none: what is advertised at once, and the requests for a seqno (RFC
    /// 8966, sections 3.7.2 and 3.8.2). It queues items and records requests, and no route is
    /// reported otherwise than before.
    #[inline(always)]
    pub(crate) fn follow_up(
        &mut self,
        now: u64,
        cause: Option<UnfeasibleUpdate>,
        prefix: &Prefix,
        change: &SelectionChange,
        cursor: &mut Cursor,
    )
        ensures { (old new : Option Selection) → change.now ≡ selection_change old new → self.new ≡ follow_up now cause prefix.now old new self.old }
    {
        if !self.follow_origin(now, prefix, change.origin, cursor) {
            self.request_from_sender(now, cause, prefix, change.before);
        }
    }

    /// Selects the route of the prefix again after an input, which was this unfeasible update or
    /// none, and does what follows from a change.
    pub(crate) fn reselect(&mut self, now: u64, cause: Option<UnfeasibleUpdate>, prefix: &Prefix)
        ensures { self.new ≡ reselect now cause prefix.now self.old }
    {
        let mut cursor = Cursor::new();
        self.reselect_near(now, cause, prefix, &mut cursor);
    }

    /// The same. The searches begin at the cursor. Returns whether the prefix's selected route is
    /// reported otherwise than before.
    pub(crate) fn reselect_near(
        &mut self,
        now: u64,
        cause: Option<UnfeasibleUpdate>,
        prefix: &Prefix,
        cursor: &mut Cursor,
    ) -> Report
        ensures state { self.new ≡ reselect now cause prefix.now self.old }
        ensures kept { result ≡ Report.Alike → KeepsRoutes self.old self.new }
    {
        let mut first = at_next_prefix(cursor);
        let change = self.select_near(prefix, cursor);
        first.source = cursor.source;
        self.follow_up(now, cause, prefix, &change, &mut first);
        cursor.source = first.source;
        change.report
    }

    /// Selects the routes of the prefixes again, one after the other. Since the prefixes rise, that
    /// is one walk over the tables.
    pub(crate) fn reselect_each(&mut self, now: u64, prefixes: &Scratch)
        ensures { self.new ≡ reselect_each now (prefixes_in prefixes.now) self.old }
    {
        let mut cursor = Cursor::new();
        for prefix in prefixes.prefixes() {
            self.reselect_near(now, None, &prefix, &mut cursor);
        }
    }

    /// Selects the route of each prefix again that has a route or a selection. One walk over the
    /// tables finds those whose selection isn't current, since a reselection changes nothing of the
    /// others. If it returns `false`, there is none, and nothing changed.
    pub(crate) fn reselect_all(&mut self, now: u64, scratch: &mut Scratch) -> bool
        ensures state { self.new ≡ reselect_all now self.old }
        ensures current { AreCurrent self.new }
        ensures quiet { IsFalse result → self.new ≡ self.old }
    {
        let links = LinkCosts::new(&self.interfaces, &self.neighbours);
        scratch.gather_stale(&self.routes, &self.announced, &self.sources, &links);
        self.reselect_each(now, scratch);
        !scratch.is_empty()
    }

    /// The same as `reselect_all`. If the speaker is settled, all selections are current, and there
    /// is nothing to do. It is settled then.
    #[tactic(auto, using(crate::proofs::Settling::settled_all, crate::proofs::Settling::current_all))]
    pub(crate) fn reselect_unless(&mut self, now: u64, hints: &mut Hints) -> bool
        requires settled { IsTrue hints.old.settled → AreCurrent self.old }
        ensures state { self.new ≡ reselect_all now self.old }
        ensures current { AreCurrent self.new }
        ensures quiet { IsFalse result → self.new ≡ self.old }
    {
        // The tables are in order.
        let _count = self.routes.len();
        if hints.settled {
            return false;
        }
        hints.settled = true;
        self.reselect_all(now, &mut hints.scratch)
    }

    /// The same as `select_near`, where the cost of one link is known.
    #[inline(always)]
    fn select_changed(
        &mut self,
        prefix: &Prefix,
        known: &KnownCost,
        cursor: &mut Cursor,
    ) -> SelectionChange
        requires known { known.now.cost ≡ cost_at self.old known.now.peer }
        ensures state { self.new ≡ select prefix.now self.old }
        ensures change { result ≡ selection_change (selected_at prefix.now self.old) (selected_at prefix.now self.new) }
    {
        let origin = self.origin(prefix);
        let links = LinkCosts::new(&self.interfaces, &self.neighbours);
        let costs = KnownCosts::new(links, known);
        self.routes
            .select_changed(prefix, origin, &self.sources, &costs, cursor)
    }

    /// Selects the route of the prefix again, as `reselect_near` without a cause. The cursor goes
    /// to the next prefix.
    #[inline(always)]
    fn reselect_changed(
        &mut self,
        now: u64,
        prefix: &Prefix,
        known: &KnownCost,
        cursor: &mut Cursor,
    )
        requires known { known.now.cost ≡ cost_at self.old known.now.peer }
        ensures state { self.new ≡ reselect now None prefix.now self.old }
        ensures entries { self.new.routes.entries ≡ self.old.routes.entries }
        ensures known { known.now.cost ≡ cost_at self.new known.now.peer }
    {
        let change = self.select_changed(prefix, known, cursor);
        self.follow_origin(now, prefix, change.origin, cursor);
    }

    /// The neighbour of the prefix's selection, if a reselection leaves that after a change of the
    /// neighbour of this cost alone: of its routes, or of the link to it. `None` says nothing. The
    /// cursor is at the neighbour's route, and goes to the selection.
    #[inline(always)]
    pub(crate) fn kept_selection(
        &self,
        prefix: &Prefix,
        known: &KnownCost,
        cursor: &mut Cursor,
    ) -> Option<Peer>
        requires known { known.now.cost ≡ cost_at self.now known.now.peer }
        requires others { IsCurrentButAt known.now.peer prefix.now self.now }
        ensures selection { IsSome result → result ≡ peer_before (selected_at prefix.now self.now) }
        ensures kept { IsSome result → self.now ≡ select prefix.now self.now }
    {
        let key = RouteKey {
            prefix: *prefix,
            peer: known.peer,
        };
        let links = LinkCosts::new(&self.interfaces, &self.neighbours);
        let costs = KnownCosts::new(links, known);
        self.routes
            .kept_selection(&key, &self.sources, &costs, cursor)
    }

    /// Whether the selection of the prefix stays after a change of the link to the neighbour of
    /// this cost. `false` says nothing. The cursor is at that neighbour's route, and goes to the
    /// next prefix's selection.
    #[inline(never)]
    fn keeps_selection(&self, prefix: &Prefix, known: &KnownCost, cursor: &mut Cursor) -> bool
        requires known { known.now.cost ≡ cost_at self.now known.now.peer }
        requires others { IsCurrentButAt known.now.peer prefix.now self.now }
        ensures { IsTrue result → self.now ≡ select prefix.now self.now }
    {
        if self.kept_selection(prefix, known, cursor).is_none() {
            return false;
        }
        // The next prefix is mostly the next one that has a selection.
        cursor.selection = cursor.selection.wrapping_add(1);
        true
    }

    /// The cost of the link to the neighbour now, which no reselection changes. Mostly the
    /// neighbour sent the last message.
    #[inline(always)]
    pub(crate) fn known_cost(&self, peer: &Peer) -> KnownCost
        ensures peer { result.peer ≡ peer.now }
        ensures known { result.cost ≡ cost_at self.now result.peer }
    {
        let nominal = self.interfaces.nominal_cost(peer.iface);
        KnownCost {
            peer: *peer,
            cost: self.neighbours.cost_to_sender(peer, nominal),
        }
    }

    /// Selects the route of the prefix again after a change of the link to the neighbour of this
    /// cost. If the prefix has routes of several neighbours, its selection may stay. The cursor is
    /// at that neighbour's route.
    #[inline(always)]
    fn reselect_after_link(
        &mut self,
        now: u64,
        prefix: &Prefix,
        known: &KnownCost,
        cursor: &mut Cursor,
    )
        requires known { known.now.cost ≡ cost_at self.old known.now.peer }
        requires others { IsCurrentButAt known.now.peer prefix.now self.old }
        ensures state { self.new ≡ reselect now None prefix.now self.old }
        ensures entries { self.new.routes.entries ≡ self.old.routes.entries }
        ensures known { known.now.cost ≡ cost_at self.new known.now.peer }
    {
        if !self.routes.is_shared(cursor.entry) {
            self.reselect_changed(now, prefix, known, cursor);
        } else if !self.keeps_selection(prefix, known, cursor) {
            self.reselect_near(now, None, prefix, cursor);
        }
    }

    /// Selects the route of each prefix again to which the neighbour has a route, in one walk over
    /// the table. If all other selections are current, that leaves what a reselection of all
    /// leaves.
    pub(crate) fn reselect_from(&mut self, now: u64, peer: &Peer)
        requires others { AreOthersCurrent peer.now self.old }
        ensures state { self.new ≡ reselect_all now self.old }
        ensures current { AreCurrent self.new }
    {
        // The tables are in order.
        let _count = self.routes.len();
        if self.neighbours.as_slice().len() > 1 && self.routes.are_shared() {
            self.reselect_shared_from(now, peer);
        } else {
            self.reselect_each_from(now, peer);
        }
    }

    /// Selects the route of each prefix again to which the neighbour has a route.
    #[inline(never)]
    fn reselect_each_from(&mut self, now: u64, peer: &Peer)
        ensures { self.new ≡ reselect_each now (prefixes_from peer.now self.old.routes.entries) self.old }
    {
        let known = self.known_cost(peer);
        let mut cursor = Cursor::new();
        for place in 0..self.routes.len() {
            if let Some(prefix) = self.routes.prefix_from(place, peer) {
                cursor.entry = place;
                // A search may begin at any index. Sources of routes that follow each other mostly
                // do too.
                cursor.source = cursor.source.wrapping_add(1);
                self.reselect_changed(now, &prefix, &known, &mut cursor);
            }
        }
    }

    /// The same where some prefixes have routes of several neighbours: a selection that stays is
    /// compared with this neighbour's route alone.
    #[inline(never)]
    fn reselect_shared_from(&mut self, now: u64, peer: &Peer)
        requires others { AreCurrentBut peer.now self.old }
        ensures { self.new ≡ reselect_each now (prefixes_from peer.now self.old.routes.entries) self.old }
    {
        let known = self.known_cost(peer);
        let mut cursor = Cursor::new();
        for place in 0..self.routes.len() {
            let Some(prefix) = self.routes.prefix_from(place, peer) else {
                continue;
            };
            cursor.entry = place;
            cursor.source = cursor.source.wrapping_add(1);
            self.reselect_after_link(now, &prefix, &known, &mut cursor);
        }
    }

    /// Selects routes again after a change of the link to a neighbour. It leaves what a reselection
    /// of all leaves, and the speaker is settled. If it returns `false`, nothing changed by it and
    /// the link didn't either.
    pub(crate) fn reselect_link(
        &mut self,
        change: LinkChange,
        now: u64,
        peer: &Peer,
        hints: &mut Hints,
    ) -> bool
        requires nothing { IsTrue hints.old.settled → change ≡ Nothing → AreCurrent self.old }
        requires cost { IsTrue hints.old.settled → change ≡ Cost → AreOthersCurrent peer.now self.old }
        requires routes { IsTrue hints.old.settled → change ≡ Routes → AreCurrentUnless (is_lost (Neighbour peer.now) self.old) self.old }
        ensures state { self.new ≡ reselect_all now self.old }
        ensures current { AreCurrent self.new }
        ensures quiet { IsFalse result → (change ≡ Nothing) × (self.new ≡ self.old) }
    {
        match change {
            LinkChange::Nothing => return self.reselect_unless(now, hints),
            LinkChange::Cost if hints.settled => {
                self.reselect_from(now, peer);
            }
            LinkChange::Routes if hints.settled => {
                self.reselect_lost(now, &Loss::Neighbour(*peer));
            }
            LinkChange::Cost | LinkChange::Routes => {
                self.reselect_unless(now, hints);
            }
        }
        true
    }
}
