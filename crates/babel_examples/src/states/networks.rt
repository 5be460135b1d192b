//! Three speakers in a line.

ghost use Rattle.std.specs.Prelude.{◌≡◌, false, [], ◌∷◌, Some, None};
ghost use Rattle.babel_message.specs.declared.messages.Message.TheVariants as messages;
ghost use Rattle.babel_state.specs.declared.items.Item.TheVariants as items;
ghost use Rattle.babel_state.specs.declared.requests.Resend.TheVariants.{Unfeasible};
ghost use Rattle.babel_examples.specs.ExampleStates.{router, addr, peer, ten, ten_of, pair, to_all, queued_items};
ghost use Rattle.babel_examples.specs.LostRoutes.{selected_peer};
ghost use Rattle.babel_examples.specs.ThreeNodes.{b_2, a_2, b_3, b_4, c_3, c_4, b_5, b_6, b_7, b_8};

/// The route of node 0 is selected at node 1, and then at node 2, hop by hop.
pub fn route_spreads()
    ensures not_yet { selected_peer b_2.state ≡ None }
    ensures no_update_again { a_2.messages ≡ messages.Hello false 1 400 ∷ messages.Ihu (Some (addr 2)) 96 1200 ∷ [] }
    ensures selected_at_1 { selected_peer b_3 ≡ Some (peer 1) }
    ensures advertised { b_4.messages ≡ messages.Update ten (router 1) (addr 2) 0 96 1600 ∷ [] }
    ensures selected_at_2 { selected_peer c_3 ≡ Some (peer 2) }
    ensures advertised_on { c_4.messages ≡ messages.Update ten (router 1) (addr 3) 0 192 1600 ∷ [] }
    ensures stays { selected_peer b_5 ≡ Some (peer 1) }
{}

/// When node 0 isn't heard any more, node 1 doesn't select the route that node 2 had from it,
/// however late that comes. It asks for a greater seqno.
pub fn no_loop_after_a_loss()
    ensures one_missed { selected_peer b_6 ≡ Some (peer 1) }
    ensures lost { selected_peer b_7 ≡ None }
    ensures asked { b_7.requests ≡ (ten_of 1, record { seqno = 1; resend = Unfeasible; wait = 200; due = 2400 }) ∷ [] }
    ensures queued { queued_items b_7 ≡ items.Hello 0 ∷ items.Update (to_all 0) ten ∷ items.Update (to_all 0) ten ∷ items.Request (peer 3) (ten_of 1) 1 64 ∷ items.Hello 0 ∷ [] }
    ensures not_selected { selected_peer b_8 ≡ None }
    ensures nothing_more { queued_items b_8 ≡ items.Hello 0 ∷ items.Update (to_all 0) ten ∷ items.Update (to_all 0) ten ∷ items.Request (peer 3) (ten_of 1) 1 64 ∷ items.Hello 0 ∷ [] }
    ensures sources { b_8.sources ≡ (ten_of 1, record { distance = pair 0 96; due = 19200 }) ∷ [] }
{}
