//! Requests for a seqno (RFC 8966, section 3.8.1.2).

ghost use Rattle.std.specs.Prelude.{◌≡◌, [], ◌∷◌};
ghost use Rattle.babel_state.specs.declared.items.Item.TheVariants as items;
ghost use Rattle.babel_state.specs.declared.notes.Verdict.TheVariants as verdicts;
ghost use Rattle.babel_state.specs.declared.requests.Resend.TheVariants.{Never};
ghost use Rattle.babel_state.specs.Ticks.{requests_ticked};
ghost use Rattle.babel_examples.specs.ExampleStates.{peer, ten, ten_of, to_all, to_one, meshed, with_pending, seqno_request, after, verdict, queued_items};
ghost use Rattle.babel_examples.specs.LostRoutes.{updated_5};
ghost use Rattle.babel_examples.specs.SeqnoExamples.{own, requested_once, requested_twice, asked_for_2, forwarded};

/// The own seqno grows by 1 for each request that asks for more, and no further.
pub fn own_prefix()
    ensures verdict { verdict 0 1 (seqno_request 2 100 64) own ≡ verdicts.Taken }
    ensures once { requested_once.seqno ≡ 1 }
    ensures queued_once { queued_items requested_once ≡ items.Update (to_all 0) ten ∷ [] }
    ensures twice { requested_twice.seqno ≡ 2 }
    ensures queued_twice { queued_items requested_twice ≡ items.Update (to_all 0) ten ∷ items.Update (to_all 0) ten ∷ [] }
    ensures counted { requested_twice.raises ≡ 2 }
    ensures stays { asked_for_2.seqno ≡ 2 }
    ensures asker_alone { queued_items asked_for_2 ≡ items.Update (to_all 0) ten ∷ items.Update (to_all 0) ten ∷ items.Update (to_one 1) ten ∷ [] }
    ensures other_router { queued_items (after 0 1 (seqno_request 9 100 64) own) ≡ items.Update (to_one 1) ten ∷ [] }
    ensures other_router_stays { (after 0 1 (seqno_request 9 100 64) own).seqno ≡ 0 }
{}

/// A request for a greater seqno than the selected route's goes to its neighbour, with one hop
/// less.
pub fn forwarded_request()
    ensures verdict { verdict 100 3 (seqno_request 1 7 64) updated_5 ≡ verdicts.Taken }
    ensures queued { queued_items forwarded ≡ items.Request (peer 1) (ten_of 1) 7 63 ∷ [] }
    ensures pending { forwarded.requests ≡ (ten_of 1, record { seqno = 7; resend = Never; wait = 200; due = 300 }) ∷ [] }
    ensures far { queued_items (after 100 3 (seqno_request 1 7 255) updated_5) ≡ items.Request (peer 1) (ten_of 1) 7 254 ∷ [] }
    ensures not_repeated { requests_ticked 300 (with_pending [] forwarded) ≡ record (with_pending [] forwarded) { requests = [] } }
{}

/// One that is pending already, for this seqno or a later one, isn't passed on.
pub fn redundant_request()
    ensures same { verdict 101 3 (seqno_request 1 7 64) forwarded ≡ verdicts.Redundant }
    ensures lesser { verdict 101 3 (seqno_request 1 6 1) forwarded ≡ verdicts.Redundant }
    ensures unchanged { after 101 3 (seqno_request 1 7 64) forwarded ≡ forwarded }
    ensures greater { verdict 101 3 (seqno_request 1 8 64) forwarded ≡ verdicts.Taken }
    ensures replaced { (after 101 3 (seqno_request 1 8 64) forwarded).requests ≡ (ten_of 1, record { seqno = 8; resend = Never; wait = 200; due = 301 }) ∷ [] }
{}

/// Without hops, without a route, or if only the asker has one, a request ends here.
pub fn request_not_forwarded()
    ensures hops { verdict 100 3 (seqno_request 1 7 1) updated_5 ≡ verdicts.NotForwarded }
    ensures asker { verdict 100 1 (seqno_request 1 7 64) updated_5 ≡ verdicts.NotForwarded }
    ensures no_route { verdict 100 3 (seqno_request 1 7 64) meshed ≡ verdicts.NotForwarded }
    ensures unchanged { after 100 3 (seqno_request 1 7 1) updated_5 ≡ updated_5 }
{}

/// The selected route is sent if it is of another router, or its seqno isn't smaller.
pub fn answered_by_the_route()
    ensures seqno { queued_items (after 100 3 (seqno_request 1 5 64) updated_5) ≡ items.Update (to_one 3) ten ∷ [] }
    ensures router { queued_items (after 100 3 (seqno_request 4 7 64) updated_5) ≡ items.Update (to_one 3) ten ∷ [] }
    ensures half_a_circle { queued_items (after 100 3 (seqno_request 1 32773 64) updated_5) ≡ items.Update (to_one 3) ten ∷ [] }
{}
