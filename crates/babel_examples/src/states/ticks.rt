//! What time brings.

ghost use Rattle.std.specs.Prelude.{◌≡◌, false, [], ◌∷◌, Some, None};
ghost use Rattle.babel_message.specs.declared.messages.Message.TheVariants as messages;
ghost use Rattle.babel_state.specs.declared.items.Item.TheVariants as items;
ghost use Rattle.babel_state.specs.Ticks.{ticked, routes_selected, sources_ticked};
ghost use Rattle.babel_examples.specs.ExampleStates.{router, addr, peer, ten, net, ten_of, pair, to_all, interface, with_pending, queued_items, datagram};
ghost use Rattle.babel_examples.specs.LostRoutes.{selected_peer, updated_5};
ghost use Rattle.babel_examples.specs.TickExamples.{addr_on_1, peer_on_1, routing, first_tick, fired_at_10, first_built, second_built, built_of_one, built_at_0, built_at_400, collecting};

/// The first tick fires the three timers of each interface; then they fire each 400, 1200 and 1600
/// centiseconds.
pub fn timers()
    ensures queued { queued_items first_tick
        ≡ items.Hello 0 ∷ items.Ihu (peer 1) ∷ items.Update (to_all 0) ten ∷ items.Update (to_all 0) (net 1)
        ∷ items.Hello 1 ∷ items.Ihu peer_on_1 ∷ items.Update (to_all 1) ten ∷ items.Update (to_all 1) (net 1) ∷ [] }
    ensures interfaces { first_tick.interfaces ≡ fired_at_10 0 ∷ fired_at_10 1 ∷ [] }
    ensures early { queued_items (ticked 409 (with_pending [] first_tick)) ≡ [] }
    ensures again { queued_items (ticked 410 (with_pending [] first_tick)) ≡ items.Hello 0 ∷ items.Hello 1 ∷ [] }
    ensures selected { selected_peer first_tick ≡ Some (peer 1) }
{}

/// A datagram goes to one interface. Its updates name that interface's own address, and the metric
/// and the seqno of the moment.
pub fn two_datagrams()
    ensures first_target { first_built.target ≡ Some (to_all 0) }
    ensures first { first_built.messages
        ≡ messages.Hello false 0 400 ∷ messages.Ihu (Some (addr 1)) 96 1200
        ∷ messages.Update ten (router 1) (addr 2) 0 96 1600 ∷ messages.Update (net 1) (router 2) (addr 2) 0 0 1600 ∷ [] }
    ensures second_target { second_built.target ≡ Some (to_all 1) }
    ensures second { second_built.messages
        ≡ messages.Hello false 0 400 ∷ messages.Ihu (Some (addr_on_1 5)) 96 1200
        ∷ messages.Update ten (router 1) (addr_on_1 2) 0 96 1600 ∷ messages.Update (net 1) (router 2) (addr_on_1 2) 0 0 1600 ∷ [] }
    ensures sources { second_built.state.sources
        ≡ (ten_of 1, record { distance = pair 0 96; due = 18010 })
        ∷ (record { prefix = net 1; router = router 2 }, record { distance = pair 0 0; due = 18010 }) ∷ [] }
    ensures interfaces { second_built.state.interfaces
        ≡ record (fired_at_10 0) { hello_seqno = 1 } ∷ record (fired_at_10 1) { hello_seqno = 1 } ∷ [] }
    ensures nothing_left { (datagram 10 second_built.state).target ≡ None }
{}

/// A neighbour of which one Hello came is informed that it isn't heard well enough.
pub fn one_hello()
    ensures first { built_at_0.messages ≡ messages.Hello false 0 400 ∷ messages.Ihu (Some (addr 1)) 65535 1200 ∷ [] }
    ensures second { built_at_400.messages ≡ messages.Hello false 1 400 ∷ [] }
    ensures nothing_left { queued_items built_at_400.state ≡ [] }
{}

/// What doesn't fit stays, lowers no source and uses no seqno.
pub fn message_that_does_not_fit()
    ensures messages { built_of_one.messages ≡ messages.Hello false 0 400 ∷ [] }
    ensures sources { built_of_one.state.sources ≡ [] }
    ensures left { items.Hello 0 ∷ queued_items built_of_one.state ≡ queued_items first_tick }
{}

/// A route that isn't advertised again is retracted at its deadline, which is advertised to all,
/// and goes at the next one. No request follows: nobody has a route.
pub fn route_deadline()
    ensures early { selected_peer (routes_selected 5599 routing) ≡ Some (peer 1) }
    ensures due { selected_peer (routes_selected 5600 routing) ≡ None }
    ensures queued { queued_items (routes_selected 5600 routing) ≡ items.Update (to_all 0) ten ∷ items.Update (to_all 1) ten ∷ [] }
    ensures requests { (routes_selected 5600 routing).requests ≡ [] }
    ensures gone { (routes_selected 11200 (routes_selected 5600 routing)).routes.entries ≡ [] }
{}

/// A source that was named at 0 is collected at 18,000, if collection is on.
pub fn collection()
    ensures named { updated_5.sources ≡ (ten_of 1, record { distance = pair 5 96; due = 18000 }) ∷ [] }
    ensures early { sources_ticked 17999 collecting ≡ collecting }
    ensures due { (sources_ticked 18000 collecting).sources ≡ [] }
    ensures off { sources_ticked 18000 updated_5 ≡ updated_5 }
{}
