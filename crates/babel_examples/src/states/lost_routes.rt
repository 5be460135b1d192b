//! Routes that become unfeasible (RFC 8966, sections 3.8.2.1 and 3.8.2.2).

ghost use Rattle.std.specs.Prelude.{◌≡◌, true, [], ◌∷◌, Some, None};
ghost use Rattle.babel_message.specs.declared.messages.Message.TheVariants as messages;
ghost use Rattle.babel_state.specs.declared.items.Item.TheVariants as items;
ghost use Rattle.babel_state.specs.declared.notes.Verdict.TheVariants as verdicts;
ghost use Rattle.babel_state.specs.declared.requests.Resend.TheVariants.{Unfeasible, Neighbour};
ghost use Rattle.babel_state.specs.LostLinks.{links_lost};
ghost use Rattle.babel_state.specs.Requesting.{seqnos_requested};
ghost use Rattle.babel_state.specs.State.{selected_at};
ghost use Rattle.babel_state.specs.CurrentSelections.{has_revived_route};
ghost use Rattle.babel_state.specs.Ticks.{requests_ticked, ticked};
ghost use Rattle.babel_examples.specs.ExampleStates.{peer, ten, ten_of, pair, to_all, to_one, router, update, after, verdict, with_pending, queued_items, datagram};
ghost use Rattle.babel_examples.specs.FullTables.{full_of_requests};
ghost use Rattle.babel_examples.specs.LostRoutes.{selected_peer, best_route, route_of, updated_5, with_other, changed, lost, both_lost, tied, other_router, waiting, repeated_once, repeated_twice, repeated_thrice, given_up, unfeasible, starved, with_selected, with_gateway, new_request_of_6, request_of_6, updated_0, with_30000, updated_30000};

/// The selected route becomes unfeasible, and another one is there: that one is selected, and the
/// neighbour is asked for a greater seqno.
pub fn unfeasible_with_another_route()
    ensures verdict { verdict 20 1 (update 1 1 5 96) with_other ≡ verdicts.Unfeasible (pair 5 96) }
    ensures before { selected_peer with_other ≡ Some (peer 1) }
    ensures selected { selected_peer changed ≡ Some (peer 3) }
    ensures queued { queued_items changed ≡ items.Request (peer 1) (ten_of 1) 6 64 ∷ [] }
    ensures pending { changed.requests ≡ (ten_of 1, record { seqno = 6; resend = Neighbour (peer 1); wait = 200; due = 220 }) ∷ [] }
{}

/// If there is no other route, it is lost. That is advertised to all, and then the neighbour is
/// asked.
pub fn unfeasible_without_another_route()
    ensures verdict { verdict 20 1 (update 1 1 5 96) updated_5 ≡ verdicts.Unfeasible (pair 5 96) }
    ensures selected { selected_peer lost ≡ None }
    ensures queued { queued_items lost ≡ items.Update (to_all 0) ten ∷ items.Request (peer 1) (ten_of 1) 6 64 ∷ [] }
    ensures pending { lost.requests ≡ (ten_of 1, record { seqno = 6; resend = Unfeasible; wait = 200; due = 220 }) ∷ [] }
    ensures first_target { (datagram 20 lost).target ≡ Some (to_all 0) }
    ensures first { (datagram 20 lost).messages ≡ messages.Retraction ten 1600 ∷ [] }
    ensures second_target { (datagram 20 (datagram 20 lost).state).target ≡ Some (to_one 1) }
    ensures second { (datagram 20 (datagram 20 lost).state).messages ≡ messages.SeqnoRequest ten (router 1) 6 64 ∷ [] }
    ensures sources { (datagram 20 lost).state.sources ≡ updated_5.sources }
{}

/// Each neighbour with an unfeasible route is asked, then and when the request is repeated.
pub fn two_unfeasible_routes()
    ensures queued { queued_items both_lost ≡ items.Update (to_all 0) ten ∷ items.Request (peer 1) (ten_of 1) 6 64 ∷ items.Request (peer 3) (ten_of 1) 6 64 ∷ [] }
    ensures repeated { queued_items (requests_ticked 220 (with_pending [] both_lost)) ≡ items.Request (peer 1) (ten_of 1) 6 64 ∷ items.Request (peer 3) (ten_of 1) 6 64 ∷ [] }
{}

/// Of two routes that are as good the selected one stays. Where it goes, and the other is of
/// another router, that is advertised to all, and nobody is asked.
pub fn route_of_another_router()
    ensures stays { selected_peer tied ≡ Some (peer 1) }
    ensures not_advertised { queued_items tied ≡ [] }
    ensures selected { selected_peer other_router ≡ Some (peer 3) }
    ensures queued { queued_items other_router ≡ items.Update (to_all 0) ten ∷ [] }
    ensures requests { other_router.requests ≡ [] }
{}

/// If 64 other requests are pending, one more is queued once.
pub fn full_request_table()
    ensures queued { queued_items (after 20 1 (update 1 1 5 96) full_of_requests) ≡ queued_items lost }
    ensures requests { (after 20 1 (update 1 1 5 96) full_of_requests).requests ≡ full_of_requests.requests }
{}

/// The request is repeated after 200, 400 and 800 centiseconds, and given up 1600 later.
pub fn repeated_request()
    ensures early { requests_ticked 219 waiting ≡ waiting }
    ensures first { queued_items repeated_once ≡ request_of_6 ∷ [] }
    ensures first_wait { repeated_once.requests ≡ (ten_of 1, record { seqno = 6; resend = Unfeasible; wait = 400; due = 620 }) ∷ [] }
    ensures second { queued_items repeated_twice ≡ request_of_6 ∷ request_of_6 ∷ [] }
    ensures third_wait { repeated_thrice.requests ≡ (ten_of 1, record { seqno = 6; resend = Unfeasible; wait = 1600; due = 3020 }) ∷ [] }
    ensures last { given_up.requests ≡ [] }
    ensures no_more { queued_items given_up ≡ request_of_6 ∷ request_of_6 ∷ request_of_6 ∷ [] }
{}

/// A neighbour that retracted meanwhile isn't asked again; the wait goes on.
pub fn nobody_to_ask()
    ensures queued { queued_items (requests_ticked 220 (after 30 1 (messages.Retraction ten 1600) waiting)) ≡ [] }
    ensures pending { (requests_ticked 220 (after 30 1 (messages.Retraction ten 1600) waiting)).requests ≡ (ten_of 1, record { seqno = 6; resend = Unfeasible; wait = 400; due = 620 }) ∷ [] }
{}

/// A request that was given up is made again while the prefix has no route but unfeasible ones. One
/// that is pending isn't.
pub fn requested_again()
    ensures given_up { given_up.routes ≡ (starved (unfeasible 1 ∷ [])).routes }
    ensures queued { queued_items (seqnos_requested 3100 (starved (unfeasible 1 ∷ []))) ≡ request_of_6 ∷ [] }
    ensures recorded { (seqnos_requested 3100 (starved (unfeasible 1 ∷ []))).requests ≡ new_request_of_6 3100 }
    ensures nothing_else { record (with_pending [] (seqnos_requested 3100 (starved (unfeasible 1 ∷ [])))) { requests = [] } ≡ starved (unfeasible 1 ∷ []) }
    ensures pending { seqnos_requested 3200 (record (starved (unfeasible 1 ∷ [])) { requests = new_request_of_6 3100 }) ≡ record (starved (unfeasible 1 ∷ [])) { requests = new_request_of_6 3100 } }
{}

/// The neighbours of all unfeasible routes are asked, also of one that came later.
pub fn requested_of_a_late_way()
    ensures nobody { seqnos_requested 3100 (starved []) ≡ starved [] }
    ensures late { queued_items (seqnos_requested 3100 (starved (unfeasible 3 ∷ []))) ≡ items.Request (peer 3) (ten_of 1) 6 64 ∷ [] }
    ensures both { queued_items (seqnos_requested 3100 (starved (unfeasible 1 ∷ unfeasible 3 ∷ []))) ≡ request_of_6 ∷ items.Request (peer 3) (ten_of 1) 6 64 ∷ [] }
{}

/// The neighbour of a route that is better than the selected one is asked, and that one stays
/// selected meanwhile. Of a route that is as good nothing is requested.
pub fn requested_of_a_better_way()
    ensures queued { queued_items (seqnos_requested 3100 (with_gateway 200)) ≡ request_of_6 ∷ [] }
    ensures recorded { (seqnos_requested 3100 (with_gateway 200)).requests ≡ (ten_of 1, record { seqno = 6; resend = Neighbour (peer 1); wait = 200; due = 3300 }) ∷ [] }
    ensures nothing_else { record (with_pending [] (seqnos_requested 3100 (with_gateway 200))) { requests = [] } ≡ with_gateway 200 }
    ensures as_good { seqnos_requested 3100 (with_gateway 96) ≡ with_gateway 96 }
{}

/// None is made of a route that is no better than the selected one, of a prefix that is announced
/// here, of a route over a link that is down, or without room for it.
pub fn nothing_to_request()
    ensures selected { seqnos_requested 3100 with_selected ≡ with_selected }
    ensures announced { seqnos_requested 3100 (record (starved (unfeasible 1 ∷ [])) { announced = (ten, tt) ∷ [] }) ≡ record (starved (unfeasible 1 ∷ [])) { announced = (ten, tt) ∷ [] } }
    ensures down { seqnos_requested 3100 (record (starved (unfeasible 1 ∷ [])) { neighbours = [] }) ≡ record (starved (unfeasible 1 ∷ [])) { neighbours = [] } }
    ensures full { seqnos_requested 3100 (record (starved (unfeasible 1 ∷ [])) { requests = full_of_requests.requests }) ≡ record (starved (unfeasible 1 ∷ [])) { requests = full_of_requests.requests } }
{}

/// The new route is selected, removes the request, and is advertised to all: once as a new route,
/// once as a reply.
pub fn answered_request()
    ensures verdict { verdict 50 1 (update 1 1 6 0) waiting ≡ verdicts.Taken }
    ensures selected { selected_peer (after 50 1 (update 1 1 6 0) waiting) ≡ Some (peer 1) }
    ensures pending { (after 50 1 (update 1 1 6 0) waiting).requests ≡ [] }
    ensures queued { queued_items (after 50 1 (update 1 1 6 0) waiting) ≡ items.Update (to_all 0) ten ∷ items.Update (to_all 0) ten ∷ [] }
{}

/// An interface is down: the routes over it stay in the table, but none is selected, which is
/// advertised to all. Once a neighbour reports a cost again, its route is selected again. Of an
/// interface without neighbours nothing is lost.
pub fn interface_that_is_down()
    ensures selected { selected_peer (links_lost 20 0 with_other) ≡ None }
    ensures entries { (links_lost 20 0 with_other).routes.entries ≡ with_other.routes.entries }
    ensures queued { queued_items (links_lost 20 0 with_other) ≡ items.Update (to_all 0) ten ∷ [] }
    ensures again { selected_peer (after 30 3 (messages.Ihu None 96 1200) (links_lost 20 0 with_other)) ≡ Some (peer 3) }
    ensures other { links_lost 20 1 with_other ≡ with_other }
{}

/// Sending can make a route feasible that wasn't, since the order of seqnos isn't transitive. The
/// selection then isn't current until the next tick.
pub fn edge_case_of_the_seqno_order()
    ensures unfeasible { verdict 10 3 (update 3 1 60000 0) updated_0 ≡ verdicts.Unfeasible (pair 0 106) }
    ensures before { selected_at ten with_30000 ≡ Some (route_of 1 30000 10 20) }
    ensures current { best_route with_30000 ≡ Some (route_of 1 30000 10 20) }
    ensures sources { updated_30000.sources ≡ (ten_of 1, record { distance = pair 30000 106; due = 18030 }) ∷ [] }
    ensures selected { selected_at ten updated_30000 ≡ Some (route_of 1 30000 10 20) }
    ensures best { best_route updated_30000 ≡ Some (route_of 3 60000 0 10) }
    ensures revived { has_revived_route ten with_30000 updated_30000 ≡ true }
    ensures ticked { selected_peer (ticked 40 updated_30000) ≡ Some (peer 3) }
{}
