//! What time brings (RFC 8966, sections 3.4, 3.5.4, 3.7.1 and 3.8.2.1): the deadlines of each
//! table.

ghost use Rattle.std.specs.Prelude.{◌≡◌, ◌<◌, length, IsTrue, IsFalse};
ghost use Rattle.babel_link.specs.declared.changes.CostChanges.TheVariants.{Nothing};
ghost use Rattle.babel_state.specs.CurrentSelections.{AreCurrent, AreRoutesInOrder};
ghost use Rattle.babel_state.specs.SettledLaws.{AreSelectionsInOrder};
ghost use Rattle.babel_state.specs.KeptRoutes.{KeepsRoutes};
ghost use Rattle.babel_state.specs.Restarts.{snapshot_of};
ghost use Rattle.babel_speaker.specs.declared.input.losses.Loss.TheVariants.{Cost, Deadline};
ghost use Rattle.babel_speaker.specs.Losses.{is_any_lost, is_lost, AreCurrentUnless};
ghost use Rattle.babel_speaker.specs.TickItems.{all_timers_of};
ghost use Rattle.babel_state.specs.Reselection.{reselect_all};
ghost use Rattle.babel_state.specs.State.{prefixes_in};
ghost use Rattle.babel_state.specs.Ticks.{all_timer_items, routes_selected, forget_each, links_ticked, routes_ticked, requests_ticked, interfaces_ticked, sources_ticked, ticked};

use crate::hints::Hints;
use crate::input::losses::Loss;
use crate::state::Core;
use crate::tables::Scratch;
use crate::ticks::due_items::{queue_all_timers, queue_repeats};
use arrayvec::ArrayVec;
use babel_link::{CostChanges, MAX_NEIGHBOURS};
use babel_value::Peer;

impl Core {
    /// Removes the routes of each of the neighbours.
    fn forget_each(&mut self, peers: &[Peer])
        ensures state { self.new ≡ forget_each peers.now self.old }
        ensures in_order { AreRoutesInOrder self.new }
        ensures selections_in_order { AreSelectionsInOrder self.new }
    {
        self.routes.forget_all(peers);
    }

    /// Takes the deadlines of Hellos and IHUs (RFC 8966, sections 3.4.1 and 3.4.2). Routes of
    /// flushed neighbours are removed. Returns what changed: if nothing, all selections that were
    /// current are so, and the selected routes are reported as before. If all were current, those
    /// stay so to whose neighbour the link has a finite cost.
    #[tactic(auto, unfolding(babel_state::specs::Ticks::links_ticked))]
    pub(crate) fn tick_links(
        &mut self,
        now: u64,
        gone: &mut ArrayVec<Peer, MAX_NEIGHBOURS>,
    ) -> CostChanges
        ensures state { self.new ≡ links_ticked now self.old }
        ensures quiet { result ≡ Nothing → AreCurrent self.old → AreCurrent self.new }
        ensures kept { result ≡ Nothing → KeepsRoutes self.old self.new }
        ensures others { AreCurrent self.old → AreCurrentUnless (is_lost Cost self.new) self.new }
        ensures in_order { AreSelectionsInOrder self.new }
    {
        let changes = self.neighbours.tick_costs(now, gone);
        self.forget_each(gone.as_slice());
        changes
    }

    /// Selects routes again after the deadlines of Hellos and IHUs. It leaves what a reselection of
    /// all leaves. A settled speaker looks only at the selected routes, of which those are lost to
    /// whose neighbour the link costs infinity now. If it returns `false`, nothing changed by it
    /// and no cost did either.
    #[tactic(auto, using(crate::proofs::Settling::settled_all))]
    fn reselect_links(&mut self, changes: CostChanges, now: u64, hints: &mut Hints) -> bool
        requires nothing { IsTrue hints.old.settled → changes ≡ Nothing → AreCurrent self.old }
        requires others { IsTrue hints.old.settled → AreCurrentUnless (is_lost Cost self.old) self.old }
        requires in_order { AreSelectionsInOrder self.old }
        ensures state { self.new ≡ reselect_all now self.old }
        ensures current { AreCurrent self.new }
        ensures quiet { IsFalse result → (changes ≡ Nothing) × (self.new ≡ self.old) }
    {
        match changes {
            CostChanges::Nothing => self.reselect_unless(now, hints),
            CostChanges::One(_) | CostChanges::Several => {
                if hints.settled {
                    self.reselect_costly(now);
                } else {
                    self.reselect_all(now, &mut hints.scratch);
                }
                true
            }
        }
    }

    /// Takes the deadlines of routes (RFC 8966, section 3.5.4). If it returns `false`, none is due.
    #[tactic(auto, unfolding(babel_state::specs::Ticks::routes_ticked))]
    fn tick_routes(&mut self, now: u64) -> bool
        ensures state { self.new ≡ routes_ticked now self.old }
        ensures quiet { IsFalse result → self.new ≡ self.old }
        ensures in_order { AreRoutesInOrder self.new }
        ensures selections_in_order { AreSelectionsInOrder self.new }
    {
        self.routes.expire(now)
    }

    /// Takes the deadlines of routes, and selects the routes again that are lost by that. All other
    /// selections stay current, so this leaves what a reselection of all leaves. Returns whether a
    /// selected route was due: if not, the selected routes are reported as before.
    #[tactic(auto, using(crate::proofs::Losses::none_expired, crate::proofs::Losses::expired_unless, crate::proofs::Losses::none_lost))]
    fn expire_routes(&mut self, now: u64) -> bool
        requires current { AreCurrent self.old }
        ensures state { self.new ≡ reselect_all now (routes_ticked now self.old) }
        ensures current { AreCurrent self.new }
        ensures kept { IsFalse result → KeepsRoutes self.old self.new }
        ensures found { result ≡ is_any_lost (is_lost (Deadline now) self.old) self.old.routes.selections }
    {
        if !self.tick_routes(now) {
            return false;
        }
        self.reselect_lost(now, &Loss::Deadline(now))
    }

    /// Collects the entries of the source table whose time has come, if the speaker does so (RFC
    /// 8966, section 3.2.5). Returns whether there was one: if not, nothing changed.
    #[tactic(auto, unfolding(babel_state::specs::Ticks::sources_ticked))]
    pub(crate) fn tick_sources(&mut self, now: u64) -> bool
        ensures state { self.new ≡ sources_ticked now self.old }
        ensures quiet { IsFalse result → self.new ≡ self.old }
        ensures removed { IsTrue result → length self.new.sources < length self.old.sources }
    {
        if !self.collects {
            return false;
        }
        self.sources.collect(now)
    }

    /// Repeats the requests whose wait is over (RFC 8966, section 3.8.2.1). As long as none can be,
    /// it looks at no request.
    pub(crate) fn tick_requests(&mut self, now: u64)
        ensures { self.new ≡ requests_ticked now self.old }
    {
        let due = self.requests.may_be_due(now);
        if due {
            self.repeat_requests(now);
        }
    }

    /// Queues the requests again whose wait is over, and ends the waits.
    #[tactic(auto, unfolding(babel_state::specs::Ticks::requests_ticked), using(crate::proofs::TickLists::same_repeats))]
    fn repeat_requests(&mut self, now: u64)
        ensures { self.new ≡ requests_ticked now self.old }
    {
        queue_repeats(
            &mut self.pending,
            &self.requests,
            &self.routes,
            &self.sources,
            now,
        );
        self.requests.end_waits(now);
    }

    /// Queues what the timers of the interfaces ask for (RFC 8966, sections 3.4.1, 3.4.2 and
    /// 3.7.1). As long as none can be due, it looks at no interface.
    #[tactic(auto, using(crate::proofs::QuietTicks::nothing_due))]
    pub(crate) fn tick_interfaces(&mut self, now: u64, scratch: &mut Scratch)
        ensures { self.new ≡ interfaces_ticked now self.old }
    {
        let due = self.interfaces.may_be_due(now);
        if due {
            self.fire_timers(now, scratch);
        }
    }

    /// Makes the set that of the prefixes of which an update is due. If none is due, it doesn't
    /// matter which they are.
    #[tactic(auto, using(crate::proofs::QuietTicks::no_updates))]
    fn gather_due(&self, now: u64, scratch: &mut Scratch)
        ensures { all_timers_of now self.now.neighbours (prefixes_in scratch.new) 0 self.now.interfaces ≡ all_timer_items now self.now 0 self.now.interfaces }
    {
        let due = self.interfaces.have_due_update(now);
        if due {
            scratch.gather_reachable(&self.announced, &self.routes);
        }
    }

    /// Queues what the timers that are due ask for, and sets their next moments.
    #[tactic(auto, unfolding(babel_state::specs::Ticks::interfaces_ticked))]
    fn fire_timers(&mut self, now: u64, scratch: &mut Scratch)
        ensures { self.new ≡ interfaces_ticked now self.old }
    {
        self.gather_due(now, scratch);
        queue_all_timers(
            &mut self.pending,
            &self.interfaces,
            &self.neighbours,
            scratch,
            now,
        );
        self.interfaces.fire_all(now);
    }

    /// Takes the deadlines of Hellos and IHUs, and then those of routes. Each step leaves what a
    /// reselection of all leaves. If the speaker is settled, it looks only at the selected routes.
    /// The first step then selects those again to whose neighbour the link costs infinity. The
    /// second step selects those again that were due. If it returns `false`, the selected routes
    /// are reported as before.
    #[tactic(auto, using(crate::proofs::Settling::still_current))]
    fn tick_selections(&mut self, now: u64, hints: &mut Hints) -> bool
        requires settled { IsTrue hints.old.settled → AreCurrent self.old }
        ensures state { self.new ≡ routes_selected now self.old }
        ensures current { AreCurrent self.new }
        ensures kept { IsFalse result → KeepsRoutes self.old self.new }
    {
        let changes = self.tick_links(now, &mut hints.gone);
        let selected = self.reselect_links(changes, now, hints);
        let expired = self.expire_routes(now);
        selected || expired
    }

    /// Takes all that is due (RFC 8966, sections 3.2.5, 3.4, 3.5.4, 3.7.1 and 3.8.2.1). If the
    /// speaker is settled then, all its selections are current, and no source was collected, so
    /// that its snapshot is as before. If the hints aren't `changed` then, the selected routes are
    /// reported as before.
    #[tactic(auto, unfolding(babel_state::specs::Ticks::ticked), using(crate::proofs::Settling::timed_current))]
    pub fn tick(&mut self, now: u64, hints: &mut Hints)
        requires settled { IsTrue hints.old.settled → AreCurrent self.old }
        ensures state { self.new ≡ ticked now self.old }
        ensures current { IsTrue hints.new.settled → AreCurrent self.new }
        ensures kept { IsFalse hints.new.changed → KeepsRoutes self.old self.new }
        ensures saved { IsTrue hints.new.settled → snapshot_of self.new ≡ snapshot_of self.old }
        ensures exact { snapshot_of self.new ≡ snapshot_of self.old → IsTrue hints.new.settled }
    {
        hints.changed = self.tick_selections(now, hints);
        self.tick_requests(now);
        self.tick_interfaces(now, &mut hints.scratch);
        let collected = self.tick_sources(now);
        hints.settled = !collected;
    }
}
