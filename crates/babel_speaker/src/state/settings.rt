//! The calls that change a speaker without a datagram or a moment, and those that report its state.

ghost use Rattle.std.specs.Prelude.{◌≡◌, ◌↔◌, true, false, Option, Some, slice_get, option_map, IsTrue, IsOk, IsErr, IsNone, IfOk, IfErr, OnOk, OnErr};
ghost use Rattle.babel_value.specs.Metrics.{metric_sum};
ghost use Rattle.babel_value.specs.Prefixes.{PrefixValue};
ghost use Rattle.babel_choice.specs.Choices.{routes_of};
ghost use Rattle.babel_choice.specs.Origins.{is_own};
ghost use Rattle.babel_route.specs.declared.routes.changes.Report.{Report};
ghost use Rattle.babel_state.specs.declared.selected.Choice.{Choice};
ghost use Rattle.babel_state.specs.declared.selected.LastChoice.{LastChoice};
ghost use Rattle.babel_state.specs.KeptRoutes.{KeepsRoutes};
ghost use Rattle.babel_state.specs.State.{announces, cost_at};
ghost use Rattle.babel_state.specs.Calls.{set_cost_fault, cost_set, is_prefix_too_many, announced_also, withdrawn, select_and_advertise, choice_of, reported_selected, selected_route, reported_entries, reported_entry};

use crate::hints::OwnCursor;
use crate::output::messages::interface_entry;
use crate::state::Core;
use babel_choice::{Cursor, Entry, Origin, Selection};
use babel_route::Report;
use babel_state::{
    Choice, LastChoice, MAX_COST, NotAnnounced, Selected, SetCostFault, TooManyPrefixes,
};
use babel_value::{Metric, Peer, Prefix, RouterId};

/// Sets the nominal cost of an interface (RFC 8966, appendix A.2.1).
#[tactic(auto, unfolding(babel_state::specs::Calls::cost_set))]
pub fn set_cost(core: &mut Core, iface: u8, cost: u16) -> Result<(), SetCostFault>
    ensures refused { IsOk result ↔ IsNone (set_cost_fault iface cost core.old) }
    ensures cause { IfErr result (λ fault. set_cost_fault iface cost core.old ≡ Some fault) }
    ensures ok { OnOk result (core.new ≡ cost_set iface cost core.old) }
    ensures err { OnErr result (core.new ≡ core.old) }
{
    let Some(mut interface) = interface_entry(core, iface) else {
        return Err(SetCostFault::NoInterface);
    };
    if cost < 1 || cost > MAX_COST {
        return Err(SetCostFault::CostOutOfRange);
    }
    interface.cost = Metric(cost);
    core.interfaces.set(iface, interface);
    Ok(())
}

/// Selects the route of the prefix again, which has this origin now, and queues an update of it to
/// all. Returns whether the selected route is reported as before. The searches begin at the cursor.
fn select_and_advertise(
    core: &mut Core,
    prefix: &Prefix,
    origin: Origin,
    cursor: &mut Cursor,
) -> Report
    requires { is_own origin ≡ announces prefix.now core.old }
    ensures state { core.new ≡ select_and_advertise prefix.now core.old }
    ensures kept { result ≡ Report.Alike → KeepsRoutes core.old core.new }
    ensures exact { KeepsRoutes core.old core.new → result ≡ Report.Alike }
{
    let change = core.select_with(prefix, origin, cursor);
    core.queue_updates_to_all(prefix);
    change.report
}

/// Announces a prefix (RFC 8966, section 3.7). Returns whether the selected routes are reported as
/// before. The searches begin at the cursor.
#[tactic(auto, unfolding(babel_state::specs::Calls::announced_also))]
pub fn announce(
    core: &mut Core,
    prefix: &Prefix,
    cursor: &mut OwnCursor,
) -> Result<Report, TooManyPrefixes>
    ensures full { IsErr result ↔ (is_prefix_too_many prefix.now core.old ≡ true) }
    ensures ok { OnOk result (core.new ≡ announced_also prefix.now core.old) }
    ensures err { OnErr result (core.new ≡ core.old) }
    ensures kept { IfOk result (λ report. report ≡ Report.Alike → KeepsRoutes core.old core.new) }
    ensures exact { IfOk result (λ report. KeepsRoutes core.old core.new → report ≡ Report.Alike) }
{
    let Ok(is_new) = core.announced.insert_near(*prefix, &mut cursor.announced) else {
        return Err(TooManyPrefixes);
    };
    if !is_new {
        return Ok(Report::Alike);
    }
    let report = select_and_advertise(core, prefix, Origin::Own, &mut cursor.tables);
    Ok(report)
}

/// Announces a prefix no longer. Returns whether the selected routes are reported as before. The
/// searches begin at the cursor.
#[tactic(auto, unfolding(babel_state::specs::Calls::withdrawn))]
pub fn withdraw(
    core: &mut Core,
    prefix: &Prefix,
    cursor: &mut OwnCursor,
) -> Result<Report, NotAnnounced>
    ensures unknown { IsErr result ↔ (announces prefix.now core.old ≡ false) }
    ensures ok { OnOk result (core.new ≡ withdrawn prefix.now core.old) }
    ensures err { OnErr result (core.new ≡ core.old) }
    ensures kept { IfOk result (λ report. report ≡ Report.Alike → KeepsRoutes core.old core.new) }
    ensures exact { IfOk result (λ report. KeepsRoutes core.old core.new → report ≡ Report.Alike) }
{
    if !core.announced.remove_near(prefix, &mut cursor.announced) {
        return Err(NotAnnounced);
    }
    let report = select_and_advertise(core, prefix, Origin::Learned, &mut cursor.tables);
    Ok(report)
}

/// The selected route of the prefix, with its metric by the present cost of the link (RFC 8966,
/// section 3.6).
pub fn selected_route(core: &Core, prefix: &Prefix) -> Option<Selected>
    ensures { result ≡ selected_route prefix.now core.now }
{
    let mut nowhere = usize::MAX;
    selected_route_near(core, prefix, &mut nowhere)
}

/// The same. The search begins at the index `near` of the selections, which becomes the one after
/// the prefix, or that at which the prefix would be.
#[inline]
#[tactic(auto, unfolding(babel_state::specs::Calls::selected_route))]
pub fn selected_route_near(core: &Core, prefix: &Prefix, near: &mut usize) -> Option<Selected>
    ensures { result ≡ selected_route prefix.now core.now }
{
    match core.selected_near(prefix, near) {
        Some(Selection { peer, entry }) => {
            let Entry {
                next_hop,
                router,
                distance,
                ..
            } = entry;
            let cost = core.cost(&peer);
            let metric = distance.metric.add(cost);
            Some(Selected {
                peer,
                next_hop,
                router,
                distance,
                metric,
            })
        }
        None => None,
    }
}

/// Whether it is the same neighbour.
#[inline(always)]
fn is_same_peer(one: &Peer, other: &Peer) -> bool
    ensures { IsTrue result → one.now ≡ other.now }
{
    one.cmp(other).is_eq()
}

/// Whether it is the same router.
#[inline(always)]
fn is_same_router(one: &RouterId, other: &RouterId) -> bool
    ensures { IsTrue result → one.now ≡ other.now }
{
    one.cmp(other).is_eq()
}

/// Whether the selection is a route of this neighbour, router-id and seqno.
#[inline(always)]
fn is_of_choice(selection: &Selection, choice: &Choice) -> bool
    ensures peer { IsTrue result → selection.now.peer ≡ choice.now.peer }
    ensures router { IsTrue result → selection.now.entry.router ≡ choice.now.router }
    ensures seqno { IsTrue result → selection.now.entry.distance.seqno ≡ choice.now.seqno }
{
    let entry = &selection.entry;
    is_same_peer(&selection.peer, &choice.peer)
        && is_same_router(&entry.router, &choice.router)
        && entry.distance.seqno == choice.seqno
}

/// Whether the selection is what the choice names: a route of this neighbour, router-id and seqno
/// whose metric over the link is this now.
#[inline(always)]
fn is_choice(core: &Core, selection: &Selection, choice: &Choice) -> bool
    ensures peer { IsTrue result → selection.now.peer ≡ choice.now.peer }
    ensures router { IsTrue result → selection.now.entry.router ≡ choice.now.router }
    ensures seqno { IsTrue result → selection.now.entry.distance.seqno ≡ choice.now.seqno }
    ensures metric { IsTrue result → metric_sum selection.now.entry.distance.metric (cost_at core.now choice.now.peer) ≡ choice.now.metric }
{
    if !is_of_choice(selection, choice) {
        return false;
    }
    // It is the same neighbour, and that of the choice is in memory already.
    let cost = core.cost(&choice.peer);
    selection.entry.distance.metric.add(cost) == choice.metric
}

/// What is named of the selection now.
#[inline(never)]
fn choice_now(core: &Core, selection: &Selection) -> Choice
    ensures { (prefix : PrefixValue) → result ≡ choice_of (reported_selected prefix core.now selection.now) }
{
    let entry = &selection.entry;
    Choice {
        peer: selection.peer,
        metric: entry.distance.metric.add(core.cost(&selection.peer)),
        router: entry.router,
        seqno: entry.distance.seqno,
    }
}

/// What became of the choice that a log named last of the prefix. Mostly it is kept, and then no
/// selection is copied. The search begins at the index `near` of the selections, which becomes the
/// one after the prefix, or that at which the prefix would be.
#[inline(always)]
#[tactic(auto, unfolding(babel_state::specs::Calls::selected_route), using(crate::proofs::Choices::chosen, crate::proofs::Choices::named))]
pub fn choice_near(
    core: &Core,
    prefix: &Prefix,
    last: &Option<Choice>,
    near: &mut usize,
) -> LastChoice
    ensures kept { result ≡ LastChoice.Kept → last.now ≡ option_map choice_of (selected_route prefix.now core.now) }
    ensures now { (choice : Option Choice) → result ≡ LastChoice.Now choice → choice ≡ option_map choice_of (selected_route prefix.now core.now) }
{
    let Some(found) = core.routes.selection_near(prefix, near) else {
        return LastChoice::Now(None);
    };
    if let Some(choice) = last {
        if is_choice(core, &found.1, choice) {
            return LastChoice::Kept;
        }
    }
    // The call takes a copy, so that the selection itself needn't be in memory before.
    let copy = found.1;
    LastChoice::Now(Some(choice_now(core, &copy)))
}

/// The entry of the prefix that exactly `index` others come before, with its neighbour and the cost
/// of the link to that.
#[tactic(auto, unfolding(babel_state::specs::Calls::reported_entries))]
pub fn reported_entry(core: &Core, prefix: &Prefix, index: usize) -> Option<(Peer, Entry, Metric)>
    ensures { result ≡ slice_get (reported_entries prefix.now core.now) index }
{
    let mut left = index;
    for (key, entry) in core.routes.routes_of(prefix) {
        if left == 0 {
            return Some((key.peer, entry, core.cost(&key.peer)));
        }
        left -= 1;
    }
    None
}
