//! The table of neighbours (RFC 8966, section 3.2.4).

ghost use Rattle.std.specs.Prelude.{◌≡◌, ◌≢◌, ℕ, ◌+◌, ◌<◌, ◌≤◌, ◌↔◌, [], IsTrue, IsFalse, IsErr, IfOk, IfErr, OnOk, OnErr, IsNone, length, IfSome, is_some, count_by, insert, slice_get, slice_set, slice_index_or};
ghost use Rattle.std.specs.FinMap.{find, put, is_sorted};
ghost use Rattle.std.specs.Option.{option_map};
ghost use Rattle.std.specs.Vec.{vec_len, vec_capacity};
ghost use Rattle.babel_value.specs.declared.keys.Peer.{Peer};
ghost use Rattle.babel_link.specs.declared.links.Link.{Link};
ghost use Rattle.babel_value.specs.Hellos.{is_unicast};
ghost use Rattle.babel_value.specs.Metrics.{infinity};
ghost use Rattle.babel_value.specs.Orders.{peer_cmp};
ghost use Rattle.babel_link.specs.Neighbours.{max_neighbours, hello_of, hello_verdict, ihu_of, tick_of, gone_of, cost_changes_of, rxcost_of, cost_of, has_finite_link, are_ascending, comes_before, peers_of, AreQuietUntil, KeepsOtherCosts, CostsOnlyGrow, AreLost};
ghost use Rattle.babel_link.specs.declared.changes.CostChanges.TheVariants.{Nothing, One, Several};
ghost use Rattle.babel_link.specs.declared.changes.LinkCost.TheVariants.{Kept, Changed};
ghost use Rattle.babel_link.specs.Places.{IsPlaceOf, IsGapFor};

use crate::{CostChanges, Full, Heard, HelloEffect, Link, LinkCost, Memory, Peers};
use arrayvec::ArrayVec;
use babel_value::{HelloKind, Metric, Peer, Seqno};
use std::alloc::Global;
use std::cell::Cell;
use std::marker::Model;

/// How many neighbours there is room for.
pub const MAX_NEIGHBOURS: usize = 64;

/// The neighbours of a speaker, at most 64. A clause sees the list of the peers with what is known
/// of each, in the order of the peers.
#[derive(Drop)]
pub struct Neighbours {
    links: Vec<(Peer, Link)>,
    /// Before this moment no deadline is due.
    due: u64,
    /// Where the neighbour is whose cost was looked up last. It only matters for speed: a look-up
    /// begins there.
    near: Cell<usize>,
    /// The same of the neighbour that sent the last message.
    sender: Cell<usize>,
}

impl Model for Neighbours {
    ghost use Rattle.std.specs.Prelude.{◌≤◌, IsTrue};
    ghost use Rattle.std.specs.FinMap.{is_sorted};
    ghost use Rattle.std.specs.Vec.{vec_len, vec_capacity};
    ghost use Rattle.babel_value.specs.Orders.{peer_cmp};
    ghost use Rattle.babel_link.specs.Neighbours.{max_neighbours, Links, AreQuietUntil};

    ghost Value = { Links };

    ghost view = { λ n. n.links.items };

    ghost invariant = { λ n. (vec_len n.links ≤ max_neighbours) × (max_neighbours ≤ vec_capacity n.links) × IsTrue (is_sorted peer_cmp n.links.items) × AreQuietUntil n.due n.links.items };
}

/// Inserts into a vector that has room, which takes no memory.
fn insert_reserved<T: Drop>(items: &mut Vec<T>, place: usize, item: T)
    requires place { place ≤ vec_len items.old }
    requires room { vec_len items.old < vec_capacity items.old }
    ensures items { items.new.items ≡ insert items.old.items place item }
    ensures len { vec_len items.new ≡ vec_len items.old + 1 }
    ensures capacity { vec_capacity items.old ≤ vec_capacity items.new }
{
    items.insert(place, item).unwrap()
}

/// What a pass over the deadlines of the neighbours found.
#[derive(Clone, Copy)]
struct LinksTick {
    /// Before this moment no deadline is due again.
    due: u64,
    /// What it changed of the links' costs.
    changes: CostChanges,
}

/// Copies the entry at a place to another one. It isn't inlined: a loop over the links would clear
/// the room for the copy at each of them, and few are moved.
#[inline(never)]
fn copy_entry(links: &mut Vec<(Peer, Link)>, from: usize, to: usize)
    requires from { from < vec_len links.old }
    requires to { to < vec_len links.old }
    ensures items { (e : Peer × Link) → links.new.items ≡ slice_set links.old.items to (slice_index_or links.old.items from e) }
    ensures len { vec_len links.new ≡ vec_len links.old }
    ensures capacity { vec_capacity links.new ≡ vec_capacity links.old }
{
    links[to] = links[from];
}

/// Moves the entry at a place down to an earlier one. If it is there already, nothing is copied.
#[inline(always)]
fn move_down(links: &mut Vec<(Peer, Link)>, place: usize, kept: usize)
    requires within { place < vec_len links.old }
    requires earlier { kept ≤ place }
    ensures items { (e : Peer × Link) → links.new.items ≡ slice_set links.old.items kept (slice_index_or links.old.items place e) }
    ensures len { vec_len links.new ≡ vec_len links.old }
    ensures capacity { vec_capacity links.new ≡ vec_capacity links.old }
{
    if kept < place {
        copy_entry(links, place, kept);
    }
}

/// Handles the deadlines of the neighbours, in one pass. Until a neighbour is flushed, each link is
/// handled where it is, and not copied. The later ones then move down.
#[tactic(auto, using(crate::proofs::ExactLemmas::exact_none))]
fn tick_links(
    links: &mut Vec<(Peer, Link)>,
    now: u64,
    gone: &mut ArrayVec<Peer, MAX_NEIGHBOURS>,
) -> LinksTick
    requires { vec_len links.old ≤ max_neighbours }
    ensures links { links.new.items ≡ tick_of now links.old.items }
    ensures gone { gone.new.items ≡ gone_of now links.old.items }
    ensures len { vec_len links.new ≤ vec_len links.old }
    ensures capacity { vec_capacity links.new ≡ vec_capacity links.old }
    ensures due { AreQuietUntil result.due links.new.items }
    ensures costs { result.changes ≡ Nothing → (peer : Peer) (nominal : ℕ) → cost_of peer nominal links.new.items ≡ cost_of peer nominal links.old.items }
    ensures others { (peer : Peer) → result.changes ≡ One peer → KeepsOtherCosts peer links.old.items links.new.items }
    ensures flushed { result.changes ≢ Several → gone.new.items ≡ [] }
    ensures exact { result.changes ≡ cost_changes_of now links.old.items }
{
    gone.clear();
    let mut kept = 0;
    let mut due = u64::MAX;
    let mut changes = CostChanges::Nothing;
    for place in 0..links.len() {
        move_down(links, place, kept);
        let (peer, link) = &mut links[kept];
        match link.tick_cost(now) {
            Some(cost) => {
                due = due.min(link.due());
                changes.add(peer, cost);
                kept += 1;
            }
            None => {
                gone.push(*peer);
                changes = CostChanges::Several;
            }
        }
    }
    links.truncate(kept);
    LinksTick { due, changes }
}

impl Neighbours {
    /// No neighbours, with the room for all that there may be. Only this call takes memory.
    pub fn new(alloc: Global) -> Result<Neighbours, Memory>
        ensures { IfOk result (λ neighbours. neighbours ≡ []) }
    {
        match Vec::with_capacity(alloc, MAX_NEIGHBOURS) {
            Ok(links) => Ok(Neighbours {
                links,
                due: u64::MAX,
                near: Cell::new(0),
                sender: Cell::new(0),
            }),
            Err(_) => Err(Memory),
        }
    }

    /// Forgets all neighbours. Their room stays.
    pub fn clear(&mut self)
        ensures { self.new ≡ [] }
    {
        self.links.clear();
        self.due = u64::MAX;
        self.near.set(0);
        self.sender.set(0);
    }

    /// Where the peer's entry is, or where it would be inserted.
    fn search(&self, peer: &Peer) -> Result<usize, usize>
        ensures found { IfOk result (IsPlaceOf peer.now self.now) }
        ensures absent { IfErr result (IsGapFor peer.now self.now) }
    {
        self.links.binary_search_by_key(peer, |entry| entry.0)
    }

    /// Whether the peer's entry is at this place.
    #[inline]
    fn is_at(&self, place: usize, peer: &Peer) -> bool
        ensures { IsTrue result → IsPlaceOf peer.now self.now place }
    {
        match self.links.get(place) {
            Some(entry) => entry.0.cmp(peer).is_eq(),
            None => false,
        }
    }

    /// The place after this one; after the last one the first.
    fn next_place(&self, place: usize) -> usize {
        let next = place.wrapping_add(1);
        if next < self.links.len() { next } else { 0 }
    }

    /// Where the peer's entry is, or where it would be inserted. It looks first where the last one
    /// was found, then at the next place: the routes of a prefix are in the order of their
    /// neighbours.
    fn search_near(&self, peer: &Peer) -> Result<usize, usize>
        ensures found { IfOk result (IsPlaceOf peer.now self.now) }
        ensures absent { IfErr result (IsGapFor peer.now self.now) }
    {
        self.search_by(&self.near, peer)
    }

    /// The same. Where it looks first, and where it found the peer, is in the cell.
    fn search_by(&self, last: &Cell<usize>, peer: &Peer) -> Result<usize, usize>
        ensures found { IfOk result (IsPlaceOf peer.now self.now) }
        ensures absent { IfErr result (IsGapFor peer.now self.now) }
    {
        let near = last.get();
        if self.is_at(near, peer) {
            return Ok(near);
        }
        let next = self.next_place(near);
        if self.is_at(next, peer) {
            last.set(next);
            return Ok(next);
        }
        let found = self.search(peer);
        if let Ok(place) = found {
            last.set(place);
        }
        found
    }

    /// The same of a neighbour that mostly comes after the last one: it looks there first.
    #[inline]
    fn search_next(&self, peer: &Peer) -> Result<usize, usize>
        ensures found { IfOk result (IsPlaceOf peer.now self.now) }
        ensures absent { IfErr result (IsGapFor peer.now self.now) }
    {
        let next = self.next_place(self.near.get());
        if self.is_at(next, peer) {
            self.near.set(next);
            return Ok(next);
        }
        self.search_near(peer)
    }

    /// The same for the sender of a message, mostly that of the last one, or else the next one in
    /// order. So the first look is compiled into the callers.
    #[inline(always)]
    fn search_sender(&self, peer: &Peer) -> Result<usize, usize>
        ensures found { IfOk result (IsPlaceOf peer.now self.now) }
        ensures absent { IfErr result (IsGapFor peer.now self.now) }
    {
        let near = self.sender.get();
        if self.is_at(near, peer) {
            return Ok(near);
        }
        self.search_by(&self.sender, peer)
    }

    /// What is known of the peer, by the place that a search for it found.
    fn link_at(&self, peer: Peer, place: Result<usize, usize>) -> Option<Link>
        requires found { IfOk place (IsPlaceOf peer self.now) }
        requires absent { IfErr place (IsGapFor peer self.now) }
        ensures { result ≡ find peer_cmp peer self.now }
    {
        // The peer is in the contract alone.
        let _ = peer;
        match place {
            Ok(place) => Some(self.links[place].1),
            Err(_) => None,
        }
    }

    /// What is known of the peer.
    fn get(&self, peer: Peer) -> Option<Link>
        ensures { result ≡ find peer_cmp peer self.now }
    {
        self.link_at(peer, self.search_near(&peer))
    }

    /// Adds a neighbour, at the place that a search for it found.
    fn add(&mut self, peer: Peer, place: usize, link: Link)
        requires absent { IsGapFor peer self.old place }
        requires room { length self.old < max_neighbours }
        ensures { self.new ≡ put peer_cmp peer link self.old }
    {
        // The proof's plan for the write below needs these types named first.
        let _ = (link.multicast, link.txcost_due);
        self.due = self.due.min(link.due());
        insert_reserved(&mut self.links, place, (peer, link));
    }

    /// Handles a Hello with this interval in centiseconds (RFC 8966, section 3.4.1). The first one
    /// of a peer makes it a neighbour, and is refused if there are 64 others. `Flush` means that
    /// the neighbour seems to have restarted: it is made again, and its route entries are to be
    /// removed.
    pub fn hello(
        &mut self,
        now: u64,
        peer: Peer,
        unicast: bool,
        seqno: Seqno,
        interval: u16,
    ) -> Result<Heard, Full>
        ensures full { IsErr result ↔ (IsNone (find peer_cmp peer self.old) × (length self.old ≡ max_neighbours)) }
        ensures heard { IfOk result (λ heard. heard ≡ hello_verdict peer unicast seqno self.old) }
        ensures ok { OnOk result (self.new ≡ hello_of now peer unicast seqno interval self.old) }
        ensures err { OnErr result (self.new ≡ self.old) }
    {
        match self.hear(now, peer, HelloKind::of(unicast), seqno, interval) {
            Ok(effect) => Ok(effect.heard),
            Err(full) => Err(full),
        }
    }

    /// The same, of a Hello of this kind. Returns what it changed of the cost of the peer's link,
    /// too.
    #[tactic(auto, unfolding(crate::specs::Neighbours::hello_of, crate::specs::Neighbours::hello_verdict))]
    pub fn hear(
        &mut self,
        now: u64,
        peer: Peer,
        kind: HelloKind,
        seqno: Seqno,
        interval: u16,
    ) -> Result<HelloEffect, Full>
        ensures full { IsErr result ↔ (IsNone (find peer_cmp peer self.old) × (length self.old ≡ max_neighbours)) }
        ensures heard { IfOk result (λ effect. effect.heard ≡ hello_verdict peer (is_unicast kind) seqno self.old) }
        ensures ok { OnOk result (self.new ≡ hello_of now peer (is_unicast kind) seqno interval self.old) }
        ensures err { OnErr result (self.new ≡ self.old) }
        ensures kept { IfOk result (λ effect. effect.cost ≡ Kept → (nominal : ℕ) → cost_of peer nominal self.new ≡ cost_of peer nominal self.old) }
        ensures changed { IfOk result (λ effect. effect.cost ≡ Changed → cost_of peer 0 self.new ≢ cost_of peer 0 self.old) }
    {
        match self.search_sender(&peer) {
            Ok(place) => {
                let link = &mut self.links[place].1;
                let effect = link.hear(now, kind, seqno, interval);
                let due = link.due();
                self.due = self.due.min(due);
                Ok(effect)
            }
            Err(place) => {
                if self.links.len() == MAX_NEIGHBOURS {
                    return Err(Full);
                }
                let mut link = Link::new();
                let effect = link.hear(now, kind, seqno, interval);
                self.add(peer, place, link);
                Ok(effect)
            }
        }
    }

    /// Handles an IHU, which advertises what receiving from us costs the neighbour (RFC 8966,
    /// section 3.4.2). The interval is in centiseconds. Returns `false` if the peer is no
    /// neighbour.
    pub fn ihu(&mut self, now: u64, peer: Peer, rxcost: Metric, interval: u16) -> bool
        ensures known { result ≡ is_some (find peer_cmp peer self.old) }
        ensures links { self.new ≡ ihu_of now peer rxcost interval self.old }
    {
        let known = self.known(peer);
        self.hear_ihu(now, peer, rxcost, interval);
        known
    }

    /// The same. Returns what it changed of the cost of the peer's link: nothing if the peer is no
    /// neighbour.
    #[tactic(auto, unfolding(crate::specs::Neighbours::ihu_of))]
    pub fn hear_ihu(&mut self, now: u64, peer: Peer, rxcost: Metric, interval: u16) -> LinkCost
        ensures links { self.new ≡ ihu_of now peer rxcost interval self.old }
        ensures kept { result ≡ Kept → (nominal : ℕ) → cost_of peer nominal self.new ≡ cost_of peer nominal self.old }
        ensures changed { result ≡ Changed → cost_of peer 0 self.new ≢ cost_of peer 0 self.old }
    {
        let Ok(place) = self.search_sender(&peer) else {
            return LinkCost::Kept;
        };
        let link = &mut self.links[place].1;
        let cost = link.hear_ihu(now, rxcost, interval);
        let due = link.due();
        self.due = self.due.min(due);
        cost
    }

    /// Handles the deadlines that are due (RFC 8966, sections 3.4.1 and 3.4.2): an expected Hello
    /// is missed, a txcost is too old. A neighbour of which no Hello is remembered any more is
    /// flushed: `gone` is emptied, and then has the flushed neighbours in ascending order. Returns
    /// `false` if no deadline is due; then it looks at no neighbour.
    pub fn tick(&mut self, now: u64, gone: &mut ArrayVec<Peer, MAX_NEIGHBOURS>) -> bool
        ensures links { self.new ≡ tick_of now self.old }
        ensures gone { gone.new.items ≡ gone_of now self.old }
        ensures ascending { IsTrue (are_ascending gone.new.items) }
        ensures quiet { IsFalse result → (self.new ≡ self.old) × (gone.new.items ≡ []) }
    {
        let due = self.may_be_due(now);
        let _ = self.tick_costs(now, gone);
        due
    }

    /// Whether a deadline may be due. If it returns `false`, none is, and `tick` changes nothing.
    /// It looks at no neighbour.
    #[inline]
    fn may_be_due(&self, now: u64) -> bool
        ensures links { IsFalse result → tick_of now self.now ≡ self.now }
        ensures gone { IsFalse result → gone_of now self.now ≡ [] }
        ensures costs { IsFalse result → cost_changes_of now self.now ≡ Nothing }
    {
        self.due <= now
    }

    /// Handles the deadlines that are due, as `tick`, and returns what that changed of the links'
    /// costs. Before the first deadline it looks at no neighbour.
    #[inline]
    pub fn tick_costs(&mut self, now: u64, gone: &mut ArrayVec<Peer, MAX_NEIGHBOURS>) -> CostChanges
        ensures links { self.new ≡ tick_of now self.old }
        ensures gone { gone.new.items ≡ gone_of now self.old }
        ensures costs { result ≡ Nothing → (peer : Peer) (nominal : ℕ) → cost_of peer nominal self.new ≡ cost_of peer nominal self.old }
        ensures others { (peer : Peer) → result ≡ One peer → KeepsOtherCosts peer self.old self.new }
        ensures flushed { result ≢ Several → gone.new.items ≡ [] }
        ensures exact { result ≡ cost_changes_of now self.old }
        ensures ascending { IsTrue (are_ascending gone.new.items) }
        ensures grown { CostsOnlyGrow self.old self.new }
        ensures lost { AreLost gone.new.items self.new }
    {
        if !self.may_be_due(now) {
            gone.clear();
            return CostChanges::Nothing;
        }
        let ticked = tick_links(&mut self.links, now, gone);
        self.due = ticked.due;
        ticked.changes
    }

    /// What a tick at this moment would change of the links' costs. Before the first deadline it
    /// looks at no neighbour.
    #[tactic(auto, using(crate::proofs::ExactLemmas::exact_none))]
    pub fn cost_changes(&self, now: u64) -> CostChanges
        ensures costs { result ≡ Nothing → (peer : Peer) (nominal : ℕ) → cost_of peer nominal (tick_of now self.now) ≡ cost_of peer nominal self.now }
        ensures others { (peer : Peer) → result ≡ One peer → KeepsOtherCosts peer self.now (tick_of now self.now) }
        ensures gone { result ≢ Several → gone_of now self.now ≡ [] }
        ensures exact { result ≡ cost_changes_of now self.now }
    {
        let mut changes = CostChanges::Nothing;
        if !self.may_be_due(now) {
            return changes;
        }
        for place in 0..self.links.len() {
            let (peer, mut link) = self.links[place];
            match link.tick_cost(now) {
                Some(cost) => changes.add(&peer, cost),
                None => return CostChanges::Several,
            }
        }
        changes
    }

    /// Whether a link has a finite cost over an interface of a finite nominal cost. If it returns
    /// `false`, the link to each peer costs infinity.
    pub fn has_finite_link(&self) -> bool
        ensures exact { result ≡ has_finite_link self.now }
        ensures lost { IsFalse result → (peer : Peer) (nominal : ℕ) → infinity ≤ cost_of peer nominal self.now }
    {
        let mut left = self.links.as_slice();
        while let Some((entry, rest)) = left.split_first() {
            if entry.1.finite_cost().is_finite() {
                return true;
            }
            left = rest;
        }
        false
    }

    /// The cost of receiving from the peer over an interface of this nominal cost (RFC 8966,
    /// appendix A.2.1). It is infinite if the peer is no neighbour.
    #[tactic(auto, unfolding(crate::specs::Neighbours::rxcost_of))]
    pub fn rxcost(&self, peer: Peer, nominal: Metric) -> Metric
        ensures { result ≡ rxcost_of peer nominal self.now }
    {
        match self.get(peer) {
            Some(link) => link.rxcost(nominal),
            None => Metric::INFINITE,
        }
    }

    /// The cost of the link to the peer, over an interface of this nominal cost (RFC 8966, appendix
    /// A.2.1). It is infinite if the peer is no neighbour.
    pub fn cost(&self, peer: Peer, nominal: Metric) -> Metric
        ensures { result ≡ cost_of peer nominal self.now }
    {
        self.cost_to(&peer, nominal)
    }

    /// The same of a peer that isn't copied.
    pub fn cost_to(&self, peer: &Peer, nominal: Metric) -> Metric
        ensures { result ≡ cost_of peer.now nominal self.now }
    {
        self.cost_at(*peer, self.search_near(peer), nominal)
    }

    /// The same of a peer that mostly is the sender of the last message.
    pub fn cost_to_sender(&self, peer: &Peer, nominal: Metric) -> Metric
        ensures { result ≡ cost_of peer.now nominal self.now }
    {
        self.cost_at(*peer, self.search_sender(peer), nominal)
    }

    /// The same of a neighbour that mostly comes after the one that was looked up last, as the
    /// neighbours of a prefix's routes do.
    pub fn cost_in_turn(&self, peer: &Peer, nominal: Metric) -> Metric
        ensures { result ≡ cost_of peer.now nominal self.now }
    {
        self.cost_at(*peer, self.search_next(peer), nominal)
    }

    /// The same, by the place that a search for the peer found.
    #[inline(always)]
    #[tactic(auto, unfolding(crate::specs::Neighbours::cost_of))]
    fn cost_at(&self, peer: Peer, place: Result<usize, usize>, nominal: Metric) -> Metric
        requires found { IfOk place (IsPlaceOf peer self.now) }
        requires absent { IfErr place (IsGapFor peer self.now) }
        ensures { result ≡ cost_of peer nominal self.now }
    {
        match self.link_at(peer, place) {
            Some(link) => link.cost(nominal),
            None => Metric::INFINITE,
        }
    }

    /// Whether the peer is a neighbour.
    pub fn known(&self, peer: Peer) -> bool
        ensures { result ≡ is_some (find peer_cmp peer self.now) }
    {
        self.is_known(&peer)
    }

    /// The same of a peer that isn't copied.
    #[inline(always)]
    pub fn is_known(&self, peer: &Peer) -> bool
        ensures { result ≡ is_some (find peer_cmp peer.now self.now) }
    {
        self.link_at(*peer, self.search_sender(peer)).is_some()
    }

    /// The neighbour with exactly `place` lesser ones.
    pub fn at(&self, place: usize) -> Option<Peer>
        ensures value { result ≡ option_map (λ e. e.0) (slice_get self.now place) }
        ensures lesser { IfSome result (λ peer. count_by (comes_before peer) self.now ≡ place) }
    {
        let (peer, _) = *self.links.get(place)?;
        Some(peer)
    }

    /// The neighbours with what is known of each, in ascending order.
    pub fn as_slice(&self) -> &[(Peer, Link)]
        ensures links { result.now ≡ self.now }
        ensures few { length self.now ≤ max_neighbours }
    {
        self.links.as_slice()
    }

    /// The neighbours, in ascending order.
    pub fn peers(&self) -> Peers<'_>
        ensures peers { result ≡ peers_of self.now }
        ensures order { IsTrue (is_sorted peer_cmp self.now) }
        ensures few { length self.now ≤ max_neighbours }
    {
        Peers::new(&self.links)
    }
}
