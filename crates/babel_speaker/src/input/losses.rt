//! Route selection after candidates were lost and none came, as by a deadline or a link that is
//! lost (RFC 8966, section 3.6). A selected route that is still a candidate comes before all others
//! that are, so its selection stays. Only the lost ones are selected again, in one walk over the
//! selections.

ghost use Rattle.std.specs.Prelude.{◌≡◌, ℕ, ◌+◌, ◌<◌, ◌≤◌, true, false, Some, None, drop, slice_get, IsFalse, if◌then◌else◌};
ghost use Rattle.std.specs.List.{list_any};
ghost use Rattle.babel_table.specs.Places.{IsAt};
ghost use Rattle.babel_choice.specs.Choices.{routes_of};
ghost use Rattle.babel_state.specs.Reselection.{reselect, reselect_each, reselect_all};
ghost use Rattle.babel_state.specs.CurrentSelections.{AreCurrent};
ghost use Rattle.babel_state.specs.State.{cost_at};
ghost use Rattle.babel_value.specs.declared.keys.Peer.{Peer};
ghost use Rattle.babel_value.specs.Metrics.{infinity};
ghost use Rattle.babel_speaker.specs.declared.input.losses.Loss.TheVariants.{Cost};
ghost use Rattle.babel_route.specs.Rooms.{most_routes};
ghost use Rattle.babel_speaker.specs.Losses.{is_any_lost, is_finite_route, is_lost, is_loss, prefixes_lost, AreCurrentUnless};

use crate::output::queueing::has_finite;
use crate::state::Core;
use babel_choice::{Cursor, Selection};
use babel_route::OriginChange;
use babel_value::{Peer, Prefix};

/// Why selected routes are lost, if nothing else changed of all that selections depend on.
#[derive(Clone, Copy)]
pub enum Loss {
    /// The link to their neighbour has an infinite cost now.
    Cost,
    /// Their deadline is due at this moment.
    Deadline(u64),
    /// They are this neighbour's.
    Neighbour(Peer),
}

/// The index of the next selection, if the one at the index changed so: one that is removed leaves
/// its index to the next one.
#[inline(always)]
fn next_place(place: usize, change: OriginChange) -> usize
    requires { place < most_routes }
    ensures { result ≡ (if is_loss change then place else place + 1) }
{
    match change {
        OriginChange::Lost { .. } => place,
        OriginChange::Same | OriginChange::New => place + 1,
    }
}

impl Core {
    /// Whether the selected route is lost.
    #[inline(always)]
    fn is_lost(&self, loss: &Loss, route: &Selection) -> bool
        ensures { result ≡ is_lost loss.now self.now route.now }
    {
        match loss {
            Loss::Cost => !self.cost(&route.peer).is_finite(),
            Loss::Deadline(now) => route.entry.deadline <= *now,
            Loss::Neighbour(peer) => route.peer.cmp(peer).is_eq(),
        }
    }

    /// Removes the selection of a prefix without a finite route, which is at the index, and queues
    /// an update. No seqno is requested, since no route of the prefix is unfeasible.
    fn lose_selection(&mut self, place: usize, prefix: &Prefix)
        requires at { IsAt prefix.now self.old.routes.selections place }
        requires none { list_any is_finite_route (routes_of prefix.now self.old.routes.entries) ≡ false }
        ensures state { (now : ℕ) → self.new ≡ reselect now None prefix.now self.old }
        ensures next { drop place self.new.routes.selections ≡ drop (place + 1) self.old.routes.selections }
    {
        // The selections are in order.
        let _count = self.routes.len();
        self.routes.unselect_at(place, prefix);
        self.queue_updates_to_all(prefix);
    }

    /// Selects the route of the prefix again whose selection is at the index. Returns the index of
    /// the next selection. The cursor is at the first route of the prefix, and goes to that of the
    /// next one.
    #[inline(never)]
    fn replace_selection(
        &mut self,
        now: u64,
        place: usize,
        prefix: &Prefix,
        cursor: &mut Cursor,
    ) -> usize
        requires within { place < most_routes }
        requires at { IsAt prefix.now self.old.routes.selections place }
        ensures state { self.new ≡ reselect now None prefix.now self.old }
        ensures next { drop result self.new.routes.selections ≡ drop (place + 1) self.old.routes.selections }
    {
        // The selections are in order.
        let _count = self.routes.len();
        cursor.selection = place;
        let mut first = Cursor { ..*cursor };
        let change = self.select_near(prefix, cursor);
        cursor.entry = cursor.entry.wrapping_add(1);
        first.source = cursor.source;
        self.follow_origin(now, prefix, change.origin, &mut first);
        cursor.source = first.source;
        next_place(place, change.origin)
    }

    /// The same. The cursor is near the first route of the prefix.
    fn reselect_at(&mut self, now: u64, place: usize, prefix: &Prefix, cursor: &mut Cursor) -> usize
        requires within { place < most_routes }
        requires at { IsAt prefix.now self.old.routes.selections place }
        ensures state { self.new ≡ reselect now None prefix.now self.old }
        ensures next { drop result self.new.routes.selections ≡ drop (place + 1) self.old.routes.selections }
    {
        if !has_finite(&self.routes, prefix, &mut cursor.entry) {
            self.lose_selection(place, prefix);
            return place;
        }
        self.replace_selection(now, place, prefix, cursor)
    }

    /// Removes the first selection while no link has a finite cost, so that its prefix has no
    /// candidate. The searches begin at the cursor, which then is near the routes of the prefix.
    fn lose_first(&mut self, now: u64, selected: &(Prefix, Selection), cursor: &mut Cursor)
        requires first { slice_get self.old.routes.selections 0 ≡ Some selected.now }
        requires costs { (peer : Peer) → infinity ≤ cost_at self.old peer }
        ensures state { self.new ≡ reselect now None selected.now.0 self.old }
        ensures next { self.new.routes.selections ≡ drop 1 self.old.routes.selections }
    {
        // The selections are in order.
        let _count = self.routes.len();
        let lost = &selected.1.entry;
        let change = OriginChange::Lost {
            router: lost.router,
            seqno: lost.distance.seqno,
        };
        self.routes.unselect_at(0, &selected.0);
        self.follow_origin(now, &selected.0, change, cursor);
    }

    /// Removes all selections, while no link has a finite cost.
    fn lose_all(&mut self, now: u64)
        requires costs { (peer : Peer) → infinity ≤ cost_at self.old peer }
        ensures { self.new ≡ reselect_each now (prefixes_lost (λ route. true) self.old.routes.selections) self.old }
    {
        let mut cursor = Cursor::new();
        while let Some(selected) = self.routes.selection_at(0) {
            self.lose_first(now, &selected, &mut cursor);
        }
    }

    /// Selects the routes again to whose neighbour the link costs infinity. If all others are
    /// current, that leaves what a reselection of all leaves. If all links are lost, as those of a
    /// cable that is pulled, no cost of a route is looked up.
    pub(crate) fn reselect_costly(&mut self, now: u64)
        requires others { AreCurrentUnless (is_lost Cost self.old) self.old }
        ensures state { self.new ≡ reselect_all now self.old }
        ensures current { AreCurrent self.new }
    {
        // The tables are in order.
        let _count = self.routes.len();
        if self.neighbours.has_finite_link() {
            self.reselect_lost(now, &Loss::Cost);
        } else {
            self.lose_all(now);
        }
    }

    /// Selects the routes again that are lost. Returns whether one is: if not, nothing changed.
    fn reselect_each_lost(&mut self, now: u64, loss: &Loss) -> bool
        ensures state { self.new ≡ reselect_each now (prefixes_lost (is_lost loss.now self.old) self.old.routes.selections) self.old }
        ensures quiet { IsFalse result → self.new ≡ self.old }
        ensures found { result ≡ is_any_lost (is_lost loss.now self.old) self.old.routes.selections }
    {
        let mut cursor = Cursor::new();
        let mut place = 0;
        let mut found = false;
        while let Some(selected) = self.routes.selection_at(place) {
            if self.is_lost(loss, &selected.1) {
                found = true;
                place = self.reselect_at(now, place, &selected.0, &mut cursor);
            } else {
                place += 1;
            }
        }
        found
    }

    /// The same. If all others are current, that leaves what a reselection of all leaves.
    pub(crate) fn reselect_lost(&mut self, now: u64, loss: &Loss) -> bool
        requires others { AreCurrentUnless (is_lost loss.now self.old) self.old }
        ensures state { self.new ≡ reselect_all now self.old }
        ensures current { AreCurrent self.new }
        ensures quiet { IsFalse result → self.new ≡ self.old }
        ensures found { result ≡ is_any_lost (is_lost loss.now self.old) self.old.routes.selections }
    {
        // The tables are in order.
        let _count = self.routes.len();
        self.reselect_each_lost(now, loss)
    }
}
