//! Own prefixes, costs, source addresses, and full tables.

ghost use Rattle.std.specs.Prelude.{◌≡◌, false, [], ◌∷◌, Some, None};
ghost use Rattle.babel_value.specs.declared.addresses.Addr.TheVariants.{V4};
ghost use Rattle.babel_message.specs.declared.messages.Message.TheVariants as messages;
ghost use Rattle.babel_state.specs.declared.errors.SetCostFault.TheVariants as set_cost_faults;
ghost use Rattle.babel_state.specs.declared.items.Item.TheVariants as items;
ghost use Rattle.babel_state.specs.declared.items.Outgoing.TheVariants as outgoings;
ghost use Rattle.babel_state.specs.declared.errors.RecvFault.TheVariants as recv_faults;
ghost use Rattle.babel_state.specs.declared.notes.Verdict.TheVariants as verdicts;
ghost use Rattle.babel_state.specs.Addresses.{source_fault};
ghost use Rattle.babel_state.specs.Calls.{set_cost_fault, cost_set};
ghost use Rattle.babel_state.specs.OutgoingMessages.{outgoing};
ghost use Rattle.babel_state.specs.SeqnoRequests.{raised};
ghost use Rattle.babel_examples.specs.ExampleStates.{router, addr, link_local, ipv6_prefix, peer, ten, net, to_all, start, interface, update, after, verdict, queued_items, datagram};
ghost use Rattle.babel_examples.specs.LostRoutes.{selected_peer, updated_5};
ghost use Rattle.babel_examples.specs.FullTables.{full_of_neighbours, full_of_routes, full_of_sources, at_greatest};
ghost use Rattle.babel_examples.specs.CallExamples.{announced_ten, withdrawn_ten, flushed};

/// An announced prefix has no selection, and is advertised with the own router-id; when it is
/// withdrawn the route is selected again. Both are advertised to all once.
pub fn announced_and_withdrawn()
    ensures announced { announced_ten.announced ≡ (ten, tt) ∷ [] }
    ensures no_selection { selected_peer announced_ten ≡ None }
    ensures queued { queued_items announced_ten ≡ items.Update (to_all 0) ten ∷ [] }
    ensures outgoing { outgoing announced_ten (items.Update (to_all 0) ten) ≡ outgoings.Message (to_all 0) (messages.Update ten (router 2) (addr 2) 0 0 1600) }
    ensures no_request { announced_ten.requests ≡ [] }
    ensures withdrawn { withdrawn_ten.announced ≡ [] }
    ensures selected { selected_peer withdrawn_ten ≡ Some (peer 1) }
    ensures advertised { queued_items withdrawn_ten ≡ items.Update (to_all 0) ten ∷ items.Update (to_all 0) ten ∷ [] }
{}

/// A neighbour that restarted is made again, its routes go, and no request follows.
pub fn flushed_neighbour()
    ensures verdict { verdict 40 1 (messages.Hello false 100 400) updated_5 ≡ verdicts.Taken }
    ensures entries { flushed.routes.entries ≡ [] }
    ensures selected { selected_peer flushed ≡ None }
    ensures queued { queued_items flushed ≡ items.Update (to_all 0) ten ∷ [] }
    ensures requests { flushed.requests ≡ [] }
{}

/// A 65th neighbour isn't taken; a known one is.
pub fn full_neighbour_table()
    ensures refused { verdict 0 100 (messages.Hello false 0 400) full_of_neighbours ≡ verdicts.TableFull }
    ensures unchanged { after 0 100 (messages.Hello false 0 400) full_of_neighbours ≡ full_of_neighbours }
    ensures known { verdict 0 63 (messages.Hello false 2 400) full_of_neighbours ≡ verdicts.Taken }
{}

/// The seqno goes round the circle; the count of its growths stops.
pub fn raised_seqno()
    ensures once { (raised start).seqno ≡ 1 }
    ensures round { (raised at_greatest).seqno ≡ 0 }
    ensures counted { (raised at_greatest).raises ≡ 18446744073709551615 }
{}

/// The 257th route isn't stored; a known one is.
pub fn full_route_table()
    ensures refused { verdict 0 1 (update 1 1 0 0) full_of_routes ≡ verdicts.TableFull }
    ensures unchanged { after 0 1 (update 1 1 0 0) full_of_routes ≡ full_of_routes }
    ensures known { verdict 0 1 (messages.Update (net 0) (router 1) (addr 1) 1 0 1600) full_of_routes ≡ verdicts.Taken }
{}

/// An update that needs a 513th source is left out, and counted.
pub fn full_source_table()
    ensures selected { selected_peer full_of_sources ≡ Some (peer 1) }
    ensures queued { queued_items full_of_sources ≡ items.Update (to_all 0) ten ∷ [] }
    ensures nothing { (datagram 0 full_of_sources).target ≡ None }
    ensures counted { (datagram 0 full_of_sources).state.left_out ≡ 1 }
    ensures gone { queued_items (datagram 0 full_of_sources).state ≡ [] }
{}

/// A retraction is sent even if there is no address of the family. A finite update isn't, and isn't
/// counted.
pub fn other_family()
    ensures retraction { outgoing start (items.Update (to_all 0) ipv6_prefix) ≡ outgoings.Message (to_all 0) (messages.Retraction ipv6_prefix 1600) }
    ensures update { outgoing (record start { announced = (ipv6_prefix, tt) ∷ [] }) (items.Update (to_all 0) ipv6_prefix) ≡ outgoings.Nothing }
{}

/// The source addresses from which datagrams are taken.
pub fn source_addresses()
    ensures no_interface { source_fault 1 (addr 1) start ≡ Some recv_faults.NoInterface }
    ensures neighbour { source_fault 0 (addr 1) start ≡ None }
    ensures broadcast { source_fault 0 (addr 255) start ≡ None }
    ensures foreign { source_fault 0 (V4 (192 ∷ 168 ∷ 1 ∷ 1 ∷ [])) start ≡ Some recv_faults.ForeignSource }
    ensures own { source_fault 0 (addr 2) start ≡ Some recv_faults.OwnSource }
    ensures link_local { source_fault 0 link_local start ≡ None }
{}

/// A nominal cost changes what is sent to neighbours, and nothing else.
pub fn nominal_costs()
    ensures no_interface { set_cost_fault 1 0 start ≡ Some set_cost_faults.NoInterface }
    ensures zero { set_cost_fault 0 0 start ≡ Some set_cost_faults.CostOutOfRange }
    ensures infinite { set_cost_fault 0 65535 start ≡ Some set_cost_faults.CostOutOfRange }
    ensures greatest { set_cost_fault 0 65534 start ≡ None }
    ensures set { cost_set 0 65534 updated_5 ≡ record updated_5 { interfaces = record (interface 0) { cost = 65534 } ∷ [] } }
    ensures advertised { outgoing (cost_set 0 200 updated_5) (items.Ihu (peer 1)) ≡ outgoings.Message (to_all 0) (messages.Ihu (Some (addr 1)) 200 1200) }
{}
