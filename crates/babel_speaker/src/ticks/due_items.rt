//! What a tick queues: requests again, and what the timers of interfaces ask for (RFC 8966,
//! sections 3.4, 3.7.1 and 3.8.2.1).

ghost use Rattle.std.specs.Prelude.{◌≡◌};
ghost use Rattle.babel_state.specs.Queueing.{queued};
ghost use Rattle.babel_state.specs.State.{prefixes_in};
ghost use Rattle.babel_speaker.specs.TickItems.{repeats_of, all_repeats_of, ihus_of, updates_of, timers_of, all_timers_of};

use crate::output::queueing::queue_requests_to_unfeasible;
use crate::tables::timers::{is_due, is_last};
use crate::tables::{Interfaces, PendingItems, RequestTable, Scratch, SeqnoRequest};
use babel_choice::Cursor;
use babel_link::Neighbours;
use babel_route::Routes;
use babel_sources::Sources;
use babel_state::{InterfaceEntry, Item, PendingRequest, REQUEST_HOPS, Resend, Target};
use babel_value::Source;

/// A walk over the pending requests. They are in the order of their prefixes, so each search begins
/// where the last one ended.
#[derive(Drop)]
struct Repeating {
    /// The moment of the tick.
    now: u64,
    /// Where the last searches ended.
    cursor: Cursor,
}

/// Queues the request for a source again if its wait is over, but not for the last time.
#[tactic(auto, unfolding(babel_state::specs::Queueing::queued))]
fn queue_repeat(
    pending: &mut PendingItems,
    routes: &Routes,
    sources: &Sources,
    walk: &mut Repeating,
    entry: &(Source, PendingRequest),
)
    ensures items { pending.new ≡ queued (repeats_of walk.old.now sources.now routes.now.entries entry.now) pending.old }
    ensures now { walk.new.now ≡ walk.old.now }
{
    let source = entry.0;
    let request = entry.1;
    if walk.now < request.due || is_last(&request.resend, request.wait) {
        return;
    }
    let seqno = request.seqno;
    match request.resend {
        Resend::Unfeasible => {
            let cursor = &mut walk.cursor;
            let pair = sources.pair_near(&source, &mut cursor.source);
            let repeat = SeqnoRequest {
                source,
                seqno,
                hops: REQUEST_HOPS,
            };
            let _ = queue_requests_to_unfeasible(pending, routes, sources, &repeat, &pair, cursor);
        }
        Resend::Neighbour(peer) => pending.push(Item::Request {
            peer,
            source,
            seqno,
            hops: REQUEST_HOPS,
        }),
        Resend::Never => {}
    }
}

/// Queues each request again whose wait is over, but not for the last time. It is a call of its
/// own, since its loops need the registers.
#[inline(never)]
#[tactic(auto, unfolding(babel_state::specs::Queueing::queued), using(crate::proofs::DueItems::nothing_repeated))]
pub fn queue_repeats(
    pending: &mut PendingItems,
    requests: &RequestTable,
    routes: &Routes,
    sources: &Sources,
    now: u64,
)
    ensures { pending.new ≡ queued (all_repeats_of now sources.now routes.now.entries requests.now) pending.old }
{
    let mut walk = Repeating {
        now,
        cursor: Cursor::new(),
    };
    for index in 0..requests.len() {
        if let Some(entry) = requests.at(index) {
            queue_repeat(pending, routes, sources, &mut walk, &entry);
        }
    }
}

/// Queues an IHU about each neighbour of the interface.
#[tactic(auto, unfolding(babel_state::specs::Queueing::queued))]
fn queue_ihus(pending: &mut PendingItems, neighbours: &Neighbours, iface: u8)
    ensures { pending.new ≡ queued (ihus_of iface neighbours.now) pending.old }
{
    for peer in neighbours.peers() {
        if peer.iface == iface {
            pending.push(Item::Ihu { peer });
        }
    }
}

/// Queues an update of each prefix to all on the interface.
#[tactic(auto, unfolding(babel_state::specs::Queueing::queued))]
fn queue_updates(pending: &mut PendingItems, prefixes: &Scratch, iface: u8)
    ensures { pending.new ≡ queued (updates_of iface (prefixes_in prefixes.now)) pending.old }
{
    for prefix in prefixes.prefixes() {
        let target = Target { iface, to: None };
        pending.push(Item::Update { target, prefix });
    }
}

/// Queues what the timers of an interface ask for, which is given with its number.
#[tactic(auto, unfolding(babel_state::specs::Queueing::queued), using(crate::proofs::DueItems::queued_both))]
fn queue_timers(
    pending: &mut PendingItems,
    neighbours: &Neighbours,
    prefixes: &Scratch,
    now: u64,
    numbered: &(u8, InterfaceEntry),
)
    ensures { pending.new ≡ queued (timers_of now neighbours.now (prefixes_in prefixes.now) numbered.now.0 numbered.now.1) pending.old }
{
    let iface = numbered.0;
    let interface = numbered.1;
    if is_due(now, interface.hello_due) {
        pending.push(Item::Hello { iface });
    }
    if is_due(now, interface.ihu_due) {
        queue_ihus(pending, neighbours, iface);
    }
    if is_due(now, interface.update_due) {
        queue_updates(pending, prefixes, iface);
    }
}

/// Queues what the timers of all interfaces ask for.
#[tactic(auto, unfolding(babel_state::specs::Queueing::queued), using(crate::proofs::DueItems::nothing_timed))]
pub fn queue_all_timers(
    pending: &mut PendingItems,
    interfaces: &Interfaces,
    neighbours: &Neighbours,
    prefixes: &Scratch,
    now: u64,
)
    ensures { pending.new ≡ queued (all_timers_of now neighbours.now (prefixes_in prefixes.now) 0 interfaces.now) pending.old }
{
    for iface in 0..interfaces.len() {
        if let Some(interface) = interfaces.get(iface) {
            queue_timers(pending, neighbours, prefixes, now, &(iface, interface));
        }
    }
}
