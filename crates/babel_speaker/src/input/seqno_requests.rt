//! Route Requests and Seqno Requests of a neighbour (RFC 8966, section 3.8.1).

ghost use Rattle.std.specs.Prelude.{◌≡◌, ◌≤◌, Some};
ghost use Rattle.babel_state.specs.SeqnoRequests.{handle_route_request, handle_dump_request, raised, satisfies, requested_of_own, receiver, forward, requested_of_route, handle_seqno_request};

use crate::input::records::Arrival;
use crate::input::request_receivers::{receiver, satisfies};
use crate::output::queueing::queue_updates_of;
use crate::state::Core;
use crate::tables::SeqnoRequest;
use babel_choice::Selection;
use babel_state::{Resend, Verdict};
use babel_value::{Peer, Prefix, Seqno, Source};

impl Core {
    /// Handles a request for a route of a prefix (RFC 8966, section 3.8.1.1).
    pub fn handle_route_request(&mut self, peer: &Peer, prefix: &Prefix) -> Verdict
        ensures { (self.new, result) ≡ handle_route_request peer.now prefix.now self.old }
    {
        self.queue_update_to(peer, prefix);
        Verdict::Taken
    }

    /// Handles a request for all routes (RFC 8966, section 3.8.1.1).
    #[inline(never)]
    #[tactic(auto, unfolding(babel_state::specs::State::reachable_prefixes))]
    pub fn handle_dump_request(&mut self, peer: &Peer) -> Verdict
        ensures { (self.new, result) ≡ handle_dump_request peer.now self.old }
    {
        queue_updates_of(&mut self.pending, &self.announced, &self.routes, peer);
        Verdict::Taken
    }

    /// Raises the speaker's own seqno by 1 (RFC 8966, section 3.2.2).
    pub fn raise(&mut self)
        ensures { self.new ≡ raised self.old }
    {
        self.seqno = self.seqno.next();
        self.raises = self.raises.saturating_add(1);
    }

    /// Handles a request for a seqno of an own prefix (RFC 8966, section 3.8.1.2).
    fn handle_request_of_own(&mut self, peer: &Peer, source: &Source, seqno: Seqno)
        ensures { self.new ≡ requested_of_own peer.now source.now seqno self.old }
    {
        if satisfies(&self.router, self.seqno, &source.router, seqno) {
            self.queue_update_to(peer, &source.prefix);
        } else {
            self.raise();
            self.queue_updates_to_all(&source.prefix);
        }
    }

    /// The neighbour to which a request is forwarded, if there is one.
    #[tactic(auto, unfolding(babel_state::specs::SeqnoRequests::receiver))]
    fn receiver(&self, asker: &Peer, prefix: &Prefix) -> Option<Peer>
        ensures { result ≡ receiver asker.now prefix.now self.now }
    {
        receiver(&self.routes, &self.sources, asker, prefix)
    }

    /// Forwards a request (RFC 8966, section 3.8.1.2).
    fn forward(&mut self, arrival: &Arrival, request: &SeqnoRequest) -> Verdict
        requires { 2 ≤ request.now.hops }
        ensures { (self.new, result) ≡ forward arrival.now.time request.now.source request.now.seqno request.now.hops (receiver arrival.now.peer request.now.source.prefix self.old) self.old }
    {
        match self.receiver(&arrival.peer, &request.source.prefix) {
            Some(next) => {
                let forwarded = SeqnoRequest {
                    source: request.source,
                    seqno: request.seqno,
                    hops: request.hops - 1,
                };
                self.request_seqno_from(arrival.time, &forwarded, Resend::Never, next);
                Verdict::Taken
            }
            None => Verdict::NotForwarded,
        }
    }

    /// Handles a request for a seqno of a prefix that has this selected route, or none.
    fn handle_request_of_route(
        &mut self,
        arrival: &Arrival,
        request: &SeqnoRequest,
        selected: &Option<Selection>,
    ) -> Verdict
        ensures { (self.new, result) ≡ requested_of_route arrival.now.time arrival.now.peer request.now.source request.now.seqno request.now.hops selected.now self.old }
    {
        let Some(route) = selected else {
            return Verdict::NotForwarded;
        };
        let entry = &route.entry;
        let source = &request.source;
        if satisfies(
            &entry.router,
            entry.distance.seqno,
            &source.router,
            request.seqno,
        ) {
            self.queue_update_to(&arrival.peer, &source.prefix);
            return Verdict::Taken;
        }
        if self.requests.is_redundant(source, request.seqno) {
            return Verdict::Redundant;
        }
        if request.hops < 2 {
            return Verdict::NotForwarded;
        }
        self.forward(arrival, request)
    }

    /// Handles a request for a seqno (RFC 8966, section 3.8.1.2).
    #[tactic(auto, unfolding(babel_state::specs::SeqnoRequests::handle_seqno_request))]
    pub fn handle_seqno_request(&mut self, arrival: &Arrival, request: &SeqnoRequest) -> Verdict
        ensures { (self.new, result) ≡ handle_seqno_request arrival.now.time arrival.now.peer request.now.source request.now.seqno request.now.hops self.old }
    {
        if self.announces(&request.source.prefix) {
            self.handle_request_of_own(&arrival.peer, &request.source, request.seqno);
            return Verdict::Taken;
        }
        let selected = self.selected(&request.source.prefix);
        self.handle_request_of_route(arrival, request, &selected)
    }
}
