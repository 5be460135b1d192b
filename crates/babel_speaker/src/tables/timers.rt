//! What a tick changes in the requests and the interfaces: waits and timers (RFC 8966, sections
//! 3.4, 3.7.1 and 3.8.2.1).

ghost use Rattle.std.specs.Prelude.{◌≡◌, ◌<◌, ◌+◌, ◌++◌, map, take, drop, length, false, IsFalse};
ghost use Rattle.std.specs.List.{list_any};
ghost use Rattle.babel_table.specs.Entries.{revised_entries};
ghost use Rattle.babel_speaker.specs.Deadlines.{earliest, timer_due, interface_due};
ghost use Rattle.babel_speaker.specs.DueTimers.{has_due_timer, has_due_update};
ghost use Rattle.babel_state.specs.Ticks.{is_last, waited, is_due, next_due, fired};

use crate::tables::{Interfaces, RequestTable};
use babel_state::{InterfaceEntry, LAST_REQUEST_WAIT, PendingRequest, Resend};
use babel_table::{Revised, Revision, revise_dues};
use babel_value::Source;

/// How many Hello intervals the interval of IHUs has (RFC 8966, appendix B).
pub(crate) const IHU_HELLOS: u16 = 3;

/// How many Hello intervals the interval of Updates has (RFC 8966, appendix B).
pub(crate) const UPDATE_HELLOS: u16 = 4;

/// Whether the wait of a pending request is over for the last time.
pub fn is_last(resend: &Resend, wait: u16) -> bool
    ensures { result ≡ is_last resend.now wait }
{
    match resend {
        Resend::Never => true,
        _ => wait >= LAST_REQUEST_WAIT,
    }
}

/// The waits of pending requests at a moment.
#[derive(Drop)]
struct Waits {
    now: u64,
}

impl Revision<Source, PendingRequest> for Waits {
    ghost revised = { λ waits. waited waits.now };

    fn revise(&self, _source: &Source, request: &PendingRequest) -> Revised<PendingRequest> {
        if self.now < request.due {
            return Revised::Kept;
        }
        if is_last(&request.resend, request.wait) {
            return Revised::Removed;
        }
        let wait = 2 * request.wait;
        Revised::Changed(PendingRequest {
            seqno: request.seqno,
            resend: request.resend,
            wait,
            due: self.now.saturating_add(u64::from(wait)),
        })
    }
}

impl RequestTable {
    /// Ends the waits that are over: a request waits twice as long again, or is removed after its
    /// last wait (RFC 8966, section 3.8.2.1).
    pub fn end_waits(&mut self, now: u64)
        ensures { self.new ≡ revised_entries (waited now) self.old }
    {
        self.due = revise_dues(&mut self.table, &Waits { now });
    }
}

/// Whether a timer is due. It is so at the first tick.
pub fn is_due(now: u64, timer: Option<u64>) -> bool
    ensures { result ≡ is_due now timer }
{
    match timer {
        Some(due) => due <= now,
        None => true,
    }
}

/// The next moment of a timer of this duration in centiseconds.
fn next_due(now: u64, duration: u64, timer: Option<u64>) -> Option<u64>
    ensures { result ≡ next_due now duration timer }
{
    if is_due(now, timer) {
        Some(now.saturating_add(duration))
    } else {
        timer
    }
}

/// When the timer is due: at once, if it was never set.
fn timer_due(timer: Option<u64>) -> u64
    ensures { result ≡ timer_due timer }
{
    match timer {
        Some(due) => due,
        None => 0,
    }
}

/// When the interface's next Hello, IHUs or Updates are due.
pub(crate) fn interface_due(interface: &InterfaceEntry) -> u64
    ensures { result ≡ interface_due interface.now }
{
    timer_due(interface.hello_due)
        .min(timer_due(interface.ihu_due))
        .min(timer_due(interface.update_due))
}

/// Whether the interface's timer of updates is due.
fn has_due_update(now: u64, interface: &InterfaceEntry) -> bool
    ensures { result ≡ has_due_update now interface.now }
{
    is_due(now, interface.update_due)
}

/// The interface with the next moments of the timers that are due (RFC 8966, appendix B).
pub(crate) fn fired(now: u64, interface: &InterfaceEntry) -> InterfaceEntry
    ensures { result ≡ fired now interface.now }
{
    let hello = u64::from(interface.hello);
    let mut next = *interface;
    next.hello_due = next_due(now, hello, interface.hello_due);
    next.ihu_due = next_due(now, u64::from(IHU_HELLOS) * hello, interface.ihu_due);
    next.update_due = next_due(now, u64::from(UPDATE_HELLOS) * hello, interface.update_due);
    next
}

/// The earlier one of a moment and of the deadline of the interface of the number.
fn earlier_of_interface(interfaces: &Interfaces, iface: u8, due: u64) -> u64
    ensures { earliest result (map interface_due (drop (iface + 1) interfaces.now)) ≡ earliest due (map interface_due (drop iface interfaces.now)) }
{
    match interfaces.get(iface) {
        Some(interface) => due.min(interface_due(&interface)),
        None => due,
    }
}

/// The least of a moment and of the deadlines of all interfaces.
#[tactic(auto, using(crate::proofs::Earliest::all_passed))]
pub(crate) fn earliest_interface(interfaces: &Interfaces, due: u64) -> u64
    ensures { result ≡ earliest due (map interface_due interfaces.now) }
{
    let mut least = due;
    for iface in 0..interfaces.len() {
        least = earlier_of_interface(interfaces, iface, least);
    }
    least
}

impl Interfaces {
    /// Whether a timer may be due. If it returns `false`, none is. It looks at no interface.
    pub fn may_be_due(&self, now: u64) -> bool
        ensures { IsFalse result → list_any (has_due_timer now) self.now ≡ false }
    {
        self.due <= now
    }

    /// Whether an update of each prefix is due on an interface.
    pub fn have_due_update(&self, now: u64) -> bool
        ensures { result ≡ list_any (has_due_update now) self.now }
    {
        self.entries
            .iter()
            .any(|interface| has_due_update(now, interface))
    }

    /// Gives the interface of the number the next moments of its timers that are due.
    fn fire(&mut self, now: u64, iface: u8)
        requires known { iface < length self.old }
        ensures mapped { take (iface + 1) self.new ++ map (fired now) (drop (iface + 1) self.new) ≡ take iface self.old ++ map (fired now) (drop iface self.old) }
        ensures same { length self.new ≡ length self.old }
    {
        let Some(interface) = self.get(iface) else {
            return;
        };
        self.set(iface, fired(now, &interface));
    }

    /// Gives each interface the next moments of its timers that are due.
    pub fn fire_all(&mut self, now: u64)
        ensures { self.new ≡ map (fired now) self.old }
    {
        for iface in 0..self.len() {
            self.fire(now, iface);
        }
        self.due = earliest_interface(self, u64::MAX);
    }
}
