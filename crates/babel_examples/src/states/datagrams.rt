//! What datagrams do, and the verdicts on their messages.

ghost use Rattle.std.specs.Prelude.{◌≡◌, [], ◌∷◌, Some, None, Ok};
ghost use Rattle.babel_message.specs.declared.messages.Message.TheVariants as messages;
ghost use Rattle.babel_packet.specs.Meaning.{meaning};
ghost use Rattle.babel_state.specs.declared.items.Item.TheVariants as items;
ghost use Rattle.babel_state.specs.declared.notes.Verdict.TheVariants as verdicts;
ghost use Rattle.babel_state.specs.State.{selected_at};
ghost use Rattle.babel_state.specs.Messages.{notes_of};
ghost use Rattle.babel_state.specs.Calls.{selected_route};
ghost use Rattle.babel_examples.specs.ExampleStates.{router, addr, peer, ten, net, ten_of, pair, to_all, to_one, start, meshed, announcing, update, after, verdict, queued_items, datagram, sent};
ghost use Rattle.babel_examples.specs.LostRoutes.{selected_peer, updated_5};
ghost use Rattle.babel_examples.specs.LogB.{first_octets, second_octets, third_octets, first, second, third, state_1, state_2, state_3, built_2, note, link_1, entry_2};

/// The octets mean the places that the examples take.
#[tactic(auto, unfolding(babel_packet::specs::Meaning::meaning, babel_packet::specs::Meaning::content, babel_packet::specs::Numbers::word, babel_packet::specs::Numbers::has_flag, babel_packet::specs::Hellos::hello, babel_packet::specs::Ihus::ihu_of, babel_packet::specs::Ihus::ihu, babel_packet::specs::RouterIds::router_id, babel_packet::specs::RouterIds::named_router, babel_packet::specs::NextHops::next_hop_of, babel_packet::specs::NextHops::next_hop, babel_packet::specs::NextHops::named_hop4, babel_packet::specs::NextHops::named_hop6, babel_packet::specs::Tails::tail_reason, babel_packet::specs::Prefixes::prefix_octets, babel_packet::specs::Prefixes::is_whole, babel_packet::specs::UpdateFields::address, babel_packet::specs::LookBack::update_address, babel_packet::specs::Updates::update_of, babel_packet::specs::Updates::update))]
pub fn octets()
    ensures first { meaning first_octets (addr 1) ≡ Ok first }
    ensures second { meaning second_octets (addr 1) ≡ Ok second }
    ensures third { meaning third_octets (addr 3) ≡ Ok third }
{}

/// A Hello makes a neighbour, and queues nothing.
pub fn first_datagram()
    ensures notes { notes_of 0 (peer 1) first start ≡ note 4 verdicts.Taken ∷ [] }
    ensures neighbours { state_1.neighbours ≡ (peer 1, link_1) ∷ [] }
    ensures queued { queued_items state_1 ≡ [] }
    ensures next_datagram { (datagram 0 state_1).target ≡ None }
{}

/// With the second Hello and an IHU the link costs 96, and the update of 10.0.0.0/8 with metric 0
/// is selected. It is advertised to all.
pub fn second_datagram()
    ensures notes { notes_of 400 (peer 1) second state_1 ≡ note 4 verdicts.Taken ∷ note 12 verdicts.Taken ∷ note 24 verdicts.State ∷ note 36 verdicts.Taken ∷ [] }
    ensures selection { selected_at ten state_2 ≡ Some (record { peer = peer 1; entry = entry_2 }) }
    ensures selected { selected_route ten state_2 ≡ Some (record { peer = peer 1; next_hop = addr 1; router = router 1; distance = pair 0 0; metric = 96 }) }
    ensures queued { queued_items state_2 ≡ items.Update (to_all 0) ten ∷ [] }
    ensures target { built_2.target ≡ Some (to_all 0) }
    ensures messages { built_2.messages ≡ messages.Update ten (router 1) (addr 2) 0 96 1600 ∷ [] }
    ensures sources { built_2.state.sources ≡ (ten_of 1, record { distance = pair 0 96; due = 18400 }) ∷ [] }
    ensures left { queued_items built_2.state ≡ [] }
{}

/// What was sent is no better than what neighbour 3 advertises: it isn't feasible, and nothing
/// changes but the table.
pub fn third_datagram()
    ensures notes { notes_of 500 (peer 3) third built_2.state ≡ note 4 verdicts.Taken ∷ note 12 verdicts.State ∷ note 24 (verdicts.Unfeasible (pair 0 96)) ∷ [] }
    ensures selection { selected_at ten state_3 ≡ Some (record { peer = peer 1; entry = entry_2 }) }
    ensures queued { queued_items state_3 ≡ [] }
    ensures next_datagram { (datagram 500 state_3).target ≡ None }
{}

/// A node that isn't a neighbour may ask for an Acknowledgment, and gets it.
pub fn acknowledgment_of_a_stranger()
    ensures verdict { verdict 0 9 (messages.AckRequest 7 100) start ≡ verdicts.Taken }
    ensures queued { queued_items (after 0 9 (messages.AckRequest 7 100) start) ≡ items.Ack (peer 9) 7 ∷ [] }
    ensures target { (datagram 0 (after 0 9 (messages.AckRequest 7 100) start)).target ≡ Some (to_one 9) }
    ensures messages { (datagram 0 (after 0 9 (messages.AckRequest 7 100) start)).messages ≡ messages.Ack 7 ∷ [] }
    ensures no_more { (sent 0 (after 0 9 (messages.AckRequest 7 100) start)) ≡ start }
    ensures neighbours { (after 0 9 (messages.AckRequest 7 100) start).neighbours ≡ [] }
{}

/// A request for a prefix that isn't known gets a retraction; a stranger's gets nothing.
pub fn unknown_prefix()
    ensures verdict { verdict 1 1 (messages.RouteRequest (net 9)) state_1 ≡ verdicts.Taken }
    ensures target { (datagram 1 (after 1 1 (messages.RouteRequest (net 9)) state_1)).target ≡ Some (to_one 1) }
    ensures messages { (datagram 1 (after 1 1 (messages.RouteRequest (net 9)) state_1)).messages ≡ messages.Retraction (net 9) 1600 ∷ [] }
    ensures stranger { verdict 1 9 (messages.RouteRequest (net 9)) state_1 ≡ verdicts.UnknownNeighbour }
    ensures stranger_unchanged { after 1 9 (messages.RouteRequest (net 9)) state_1 ≡ state_1 }
{}

/// All routes that are announced here or selected are sent to a neighbour that asks for all.
pub fn all_routes()
    ensures queued { queued_items (after 0 1 messages.DumpRequest (announcing updated_5)) ≡ items.Update (to_one 1) ten ∷ items.Update (to_one 1) (net 1) ∷ [] }
{}

/// Messages that change nothing.
pub fn refused_messages()
    ensures own_router { verdict 0 1 (update 1 2 0 0) meshed ≡ verdicts.OwnRouterId }
    ensures own_router_unchanged { after 0 1 (update 1 2 0 0) meshed ≡ meshed }
    ensures other_address { verdict 0 1 (messages.Ihu (Some (addr 3)) 10 400) meshed ≡ verdicts.OtherAddress }
    ensures other_address_unchanged { after 0 1 (messages.Ihu (Some (addr 3)) 10 400) meshed ≡ meshed }
    ensures any_address { verdict 0 1 (messages.Ihu None 10 400) meshed ≡ verdicts.Taken }
    ensures no_entry { verdict 0 1 (messages.Retraction ten 1600) meshed ≡ verdicts.NoEntry }
    ensures no_entries { verdict 0 3 (messages.RetractAll 1600) updated_5 ≡ verdicts.NoEntry }
    ensures retracted { selected_peer (after 0 1 (messages.RetractAll 1600) updated_5) ≡ None }
{}
