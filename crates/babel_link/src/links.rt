//! What is known of one neighbour (RFC 8966, section 3.2.4).

ghost use Rattle.std.specs.Prelude.{◌≡◌, ◌≢◌, ◌↔◌, ◌<◌, ◌||◌, ℕ, true, false, Some, None, IsTrue, IsFalse, IsSome, IsNone};
ghost use Rattle.std.specs.Option.{option_and_then, option_map_or};
ghost use Rattle.babel_link.specs.Links.{new_link, history_of, with_history, hello_timer, first_history, later_history, next_history, fired_history, link_verdict, hello_link, ihu_link, fired_link, expired_link, ticked_link, link_rxcost, link_cost, is_heard, is_up_history, is_txcost_due, IsQuietUntil};
ghost use Rattle.babel_value.specs.Hellos.{is_unicast};
ghost use Rattle.babel_value.specs.Moments.{later, hold_time};
ghost use Rattle.babel_link.specs.Histories.{heard_verdict};
ghost use Rattle.babel_link.specs.declared.changes.LinkCost.TheVariants as costs;
ghost use Rattle.babel_link.specs.declared.marks.Heard.TheVariants.{Kept};

use crate::{Heard, HelloEffect, LinkCost, Marks};
use babel_value::{HelloKind, Metric, Seqno, hold_time};

/// When the next Hello is missed.
#[derive(Clone, Copy, Debug)]
pub struct Timer {
    /// The interval that the sender advertised, in centiseconds. It is not 0.
    pub interval: u16,
    /// The moment from which the Hello is missed.
    pub due: u64,
}

/// The Hellos of one kind, multicast or unicast, of one neighbour.
#[derive(Clone, Copy, Debug)]
pub struct History {
    /// Which of them came.
    pub marks: Marks,
    /// When the next one is missed: not known before a Hello with an interval.
    pub timer: Option<Timer>,
}

/// What is known of one neighbour.
#[derive(Clone, Copy, Debug)]
pub struct Link {
    /// The multicast Hellos, once there was one.
    pub multicast: Option<History>,
    /// The unicast Hellos, once there was one.
    pub unicast: Option<History>,
    /// The cost of sending: the rxcost that the neighbour's last IHU advertised.
    pub txcost: Metric,
    /// The moment from which that is too old.
    pub txcost_due: Option<u64>,
}

/// A moment later by this many centiseconds. It stops at the greatest.
fn later_by(now: u64, duration: u64) -> u64
    ensures { result ≡ later now duration }
{
    now.saturating_add(duration)
}

/// The timer after a Hello. One without an interval leaves it.
fn timer_after(now: u64, interval: u16, timer: Option<Timer>) -> Option<Timer>
    ensures { result ≡ hello_timer now interval timer }
{
    if interval == 0 {
        return timer;
    }
    let due = later_by(now, u64::from(interval) * 3 / 2);
    Some(Timer { interval, due })
}

impl History {
    /// The history that the first Hello of a kind makes.
    fn first(now: u64, seqno: Seqno, interval: u16) -> History
        ensures { result ≡ first_history now seqno interval }
    {
        History {
            marks: Marks::first(seqno),
            timer: timer_after(now, interval, None),
        }
    }

    /// Handles a later Hello.
    #[tactic(auto, unfolding(crate::specs::Links::later_history, crate::specs::Histories::heard_verdict))]
    fn hello(&mut self, now: u64, seqno: Seqno, interval: u16) -> Heard
        ensures verdict { result ≡ heard_verdict seqno self.old.marks }
        ensures history { self.new ≡ later_history now seqno interval self.old }
    {
        let heard = self.marks.heard(seqno);
        let timer = match heard {
            Heard::Kept => self.timer,
            Heard::Flush => None,
        };
        self.timer = timer_after(now, interval, timer);
        heard
    }

    /// Handles its deadline, if that is due. Returns whether it was.
    #[tactic(auto, unfolding(crate::specs::Links::fired_history))]
    fn fire(&mut self, now: u64) -> bool
        ensures fired { IsTrue result → fired_history now self.old ≡ Some self.new }
        ensures kept { IsFalse result → (fired_history now self.old ≡ None) × (self.new ≡ self.old) }
    {
        let Some(timer) = &mut self.timer else {
            return false;
        };
        if now < timer.due {
            return false;
        }
        timer.due = later_by(now, u64::from(timer.interval));
        self.marks.missed();
        true
    }
}

/// Handles the deadline of the Hellos of a kind, if that is due. Returns whether it was.
fn fire_history(history: &mut Option<History>, now: u64) -> bool
    ensures fired { IsTrue result → (option_and_then (fired_history now) history.old ≡ history.new) × IsSome history.new }
    ensures kept { IsFalse result → (option_and_then (fired_history now) history.old ≡ None) × (history.new ≡ history.old) }
{
    match history {
        Some(history) => history.fire(now),
        None => false,
    }
}

/// Handles a Hello of a kind, of which this is the history, if there is one.
#[tactic(auto, unfolding(crate::specs::Histories::heard_verdict))]
fn take_hello(history: &mut Option<History>, now: u64, seqno: Seqno, interval: u16) -> Heard
    ensures verdict { result ≡ option_map_or (λ h. heard_verdict seqno h.marks) history.old Kept }
    ensures history { history.new ≡ Some (next_history now seqno interval history.old) }
{
    match history {
        Some(history) => history.hello(now, seqno, interval),
        None => {
            *history = Some(History::first(now, seqno, interval));
            Heard::Kept
        }
    }
}

/// The moment from which the next Hello of the history is missed; the greatest one if it is not
/// known.
fn hello_due(history: Option<History>) -> u64
    ensures { (now : ℕ) → now < result → option_and_then (fired_history now) history ≡ None }
{
    match history {
        Some(history) => match history.timer {
            Some(timer) => timer.due,
            None => u64::MAX,
        },
        None => u64::MAX,
    }
}

/// Whether a Hello of the history is remembered.
fn has_received(history: &Option<History>) -> bool
    ensures { result ≡ is_heard history.now }
{
    match history {
        Some(history) => history.marks.has_received(),
        None => false,
    }
}

/// Whether a history is up.
fn is_up(history: Option<History>) -> bool
    ensures { result ≡ is_up_history history }
{
    match history {
        Some(history) => history.marks.up(),
        None => false,
    }
}

impl Link {
    /// A neighbour of which nothing is known.
    pub(crate) fn new() -> Link
        ensures { result ≡ new_link }
    {
        Link {
            multicast: None,
            unicast: None,
            txcost: Metric::INFINITE,
            txcost_due: None,
        }
    }

    /// Handles a Hello. One that flushes the neighbour makes it again.
    #[tactic(auto, unfolding(crate::specs::Links::hello_link, crate::specs::Links::link_verdict, crate::specs::Histories::heard_verdict))]
    pub(crate) fn hello(&mut self, now: u64, kind: HelloKind, seqno: Seqno, interval: u16) -> Heard
        ensures verdict { result ≡ link_verdict (is_unicast kind) seqno self.old }
        ensures link { self.new ≡ hello_link now (is_unicast kind) seqno interval self.old }
    {
        let heard = match kind {
            HelloKind::Unicast => take_hello(&mut self.unicast, now, seqno, interval),
            HelloKind::Multicast => take_hello(&mut self.multicast, now, seqno, interval),
        };
        if heard == Heard::Flush {
            self.keep_only(kind);
        }
        heard
    }

    /// The same. Returns what it changed of the link's cost, too.
    pub(crate) fn hear(
        &mut self,
        now: u64,
        kind: HelloKind,
        seqno: Seqno,
        interval: u16,
    ) -> HelloEffect
        ensures heard { result.heard ≡ link_verdict (is_unicast kind) seqno self.old }
        ensures link { self.new ≡ hello_link now (is_unicast kind) seqno interval self.old }
        ensures kept { result.cost ≡ costs.Kept → (nominal : ℕ) → link_cost nominal self.new ≡ link_cost nominal self.old }
        ensures changed { result.cost ≡ costs.Changed → link_cost 0 self.new ≢ link_cost 0 self.old }
    {
        let before = self.finite_cost();
        let heard = self.hello(now, kind, seqno, interval);
        let cost = self.cost_since(before);
        HelloEffect { heard, cost }
    }

    /// Forgets all but the Hellos of a kind.
    fn keep_only(&mut self, kind: HelloKind)
        ensures { self.new ≡ with_history (is_unicast kind) (history_of (is_unicast kind) self.old) new_link }
    {
        let mut link = Link::new();
        match kind {
            HelloKind::Unicast => link.unicast = self.unicast,
            HelloKind::Multicast => link.multicast = self.multicast,
        }
        *self = link;
    }

    /// Handles an IHU.
    #[tactic(auto, unfolding(crate::specs::Links::ihu_link))]
    pub(crate) fn ihu(&mut self, now: u64, rxcost: Metric, interval: u16)
        ensures { self.new ≡ ihu_link now rxcost interval self.old }
    {
        self.txcost = rxcost;
        self.txcost_due = Some(later_by(now, hold_time(interval)));
    }

    /// The same. Returns what it changed of the link's cost.
    pub(crate) fn hear_ihu(&mut self, now: u64, rxcost: Metric, interval: u16) -> LinkCost
        ensures link { self.new ≡ ihu_link now rxcost interval self.old }
        ensures kept { result ≡ costs.Kept → (nominal : ℕ) → link_cost nominal self.new ≡ link_cost nominal self.old }
        ensures changed { result ≡ costs.Changed → link_cost 0 self.new ≢ link_cost 0 self.old }
    {
        let before = self.finite_cost();
        self.ihu(now, rxcost, interval);
        self.cost_since(before)
    }

    /// Whether a Hello of either kind is remembered.
    fn is_heard(&self) -> bool
        ensures { result ≡ (is_heard self.now.multicast || is_heard self.now.unicast) }
    {
        has_received(&self.multicast) || has_received(&self.unicast)
    }

    /// Handles the deadline of the multicast Hellos. Returns whether the neighbour stays.
    #[tactic(auto, unfolding(crate::specs::Links::fired_link, crate::specs::Links::unless_silent))]
    fn fire_multicast(&mut self, now: u64) -> bool
        ensures stays { IsTrue result → fired_link now false self.old ≡ Some self.new }
        ensures flushed { IsFalse result → fired_link now false self.old ≡ None }
    {
        if fire_history(&mut self.multicast, now) {
            self.is_heard()
        } else {
            true
        }
    }

    /// The same of the unicast Hellos.
    #[tactic(auto, unfolding(crate::specs::Links::fired_link, crate::specs::Links::unless_silent))]
    fn fire_unicast(&mut self, now: u64) -> bool
        ensures stays { IsTrue result → fired_link now true self.old ≡ Some self.new }
        ensures flushed { IsFalse result → fired_link now true self.old ≡ None }
    {
        if fire_history(&mut self.unicast, now) {
            self.is_heard()
        } else {
            true
        }
    }

    /// Handles the deadline of the txcost.
    #[tactic(auto, unfolding(crate::specs::Links::expired_link))]
    fn expire(&mut self, now: u64)
        ensures { self.new ≡ expired_link now self.old }
    {
        if let Some(due) = self.txcost_due {
            if due <= now {
                self.txcost = Metric::INFINITE;
                self.txcost_due = None;
            }
        }
    }

    /// Handles the deadlines that are due. Returns whether the neighbour stays: if it is flushed,
    /// nothing is promised of the link.
    #[tactic(auto, unfolding(crate::specs::Links::ticked_link))]
    pub(crate) fn tick(&mut self, now: u64) -> bool
        ensures stays { IsTrue result → ticked_link now self.old ≡ Some self.new }
        ensures flushed { IsFalse result → ticked_link now self.old ≡ None }
    {
        if !self.fire_multicast(now) {
            return false;
        }
        if !self.fire_unicast(now) {
            return false;
        }
        self.expire(now);
        true
    }

    /// The moment from which the txcost is too old; the greatest one if there is none.
    fn txcost_due(&self) -> u64
        ensures { (now : ℕ) → now < result → is_txcost_due now self.now ≡ false }
    {
        match self.txcost_due {
            Some(due) => due,
            None => u64::MAX,
        }
    }

    /// A moment before which no deadline is due.
    pub(crate) fn due(&self) -> u64
        ensures { IsQuietUntil result self.now }
    {
        hello_due(self.multicast)
            .min(hello_due(self.unicast))
            .min(self.txcost_due())
    }

    /// The cost of receiving from the neighbour.
    #[tactic(auto, unfolding(crate::specs::Links::link_rxcost))]
    pub(crate) fn rxcost(&self, nominal: Metric) -> Metric
        ensures { result ≡ link_rxcost nominal self.now }
    {
        if is_up(self.multicast) || is_up(self.unicast) {
            nominal
        } else {
            Metric::INFINITE
        }
    }

    /// The cost of the link.
    #[tactic(auto, unfolding(crate::specs::Links::link_cost))]
    pub(crate) fn cost(&self, nominal: Metric) -> Metric
        ensures { result ≡ link_cost nominal self.now }
    {
        if self.rxcost(nominal).is_finite() {
            self.txcost
        } else {
            Metric::INFINITE
        }
    }

    /// The cost of the link over an interface of a finite nominal cost, whatever that is.
    pub(crate) fn finite_cost(&self) -> Metric
        ensures { result ≡ link_cost 0 self.now }
    {
        self.cost(Metric(0))
    }

    /// What changed of the link's cost since it was this, over an interface of a finite nominal
    /// cost.
    fn cost_since(&self, before: Metric) -> LinkCost
        ensures { (result ≡ costs.Kept) ↔ (link_cost 0 self.now ≡ before) }
    {
        if self.finite_cost().0 == before.0 {
            LinkCost::Kept
        } else {
            LinkCost::Changed
        }
    }

    /// Whether a deadline is due. If it returns `false`, a tick leaves the link as it is.
    fn is_due(&self, now: u64) -> bool
        ensures { IsFalse result → ticked_link now self.now ≡ Some self.now }
    {
        if hello_due(self.multicast) <= now {
            return true;
        }
        if hello_due(self.unicast) <= now {
            return true;
        }
        self.txcost_due() <= now
    }

    /// Handles the deadlines that are due, as `tick`. Returns what that changed of the link's cost:
    /// `None` if the neighbour is flushed. A link of which none is due is left as it is.
    #[inline(always)]
    pub(crate) fn tick_cost(&mut self, now: u64) -> Option<LinkCost>
        ensures stays { IsSome result → ticked_link now self.old ≡ Some self.new }
        ensures flushed { IsNone result → ticked_link now self.old ≡ None }
        ensures kept { result ≡ Some costs.Kept → (nominal : ℕ) → link_cost nominal self.new ≡ link_cost nominal self.old }
        ensures changed { result ≡ Some costs.Changed → link_cost 0 self.new ≢ link_cost 0 self.old }
    {
        if !self.is_due(now) {
            return Some(LinkCost::Kept);
        }
        let before = self.finite_cost();
        if !self.tick(now) {
            return None;
        }
        // A tick makes no infinite cost finite.
        if before == Metric::INFINITE {
            return Some(LinkCost::Kept);
        }
        Some(self.cost_since(before))
    }
}
