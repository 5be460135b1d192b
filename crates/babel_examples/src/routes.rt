//! Examples of routes, on which the check computes the definitions. Each is the contract of a
//! function that does nothing.

ghost use Rattle.std.specs.Prelude.{◌≡◌, true, false, Some, None, [], ◌∷◌};
ghost use Rattle.std.specs.FinMap.{find};
ghost use Rattle.babel_examples.specs.SourceExamples.{pair, one_sent};
ghost use Rattle.babel_examples.specs.RouteExamples.{prefix, neighbour, cost, router, next_hop, entry, route, empty, updated_by, selecting, selected_of, two_updates, greater_selected, one_selected, unfeasible_update, flushed, three_prefixes};
ghost use Rattle.babel_choice.specs.Routes.{entry_of_update, retracted, retracted_all, has_routes_from, forgotten, expired};
ghost use Rattle.babel_choice.specs.RouteKeys.{route_cmp};
ghost use Rattle.babel_choice.specs.Choices.{route_metric, is_candidate};
ghost use Rattle.babel_route.specs.Selections.{choice_at, reselected, selection_at, places_taken, prefix_after};

/// Over a link that costs 96.
pub fn metrics_by_the_cost()
    ensures far { route_metric cost (route 2 1 (pair 5 65500) 0) ≡ 65535 }
    ensures greatest { route_metric cost (route 2 1 (pair 5 65438) 0) ≡ 65534 }
    ensures infinite { route_metric cost (route 2 1 (pair 5 65439) 0) ≡ 65535 }
    ensures retracted { route_metric cost (route 2 1 (pair 5 65535) 0) ≡ 65535 }
    ensures far_is_none { is_candidate [] cost (route 2 1 (pair 5 65500) 0) ≡ false }
    ensures greatest_is_one { is_candidate [] cost (route 2 1 (pair 5 65438) 0) ≡ true }
    ensures infinite_is_none { is_candidate [] cost (route 2 1 (pair 5 65439) 0) ≡ false }
    ensures retracted_is_none { is_candidate [] cost (route 2 1 (pair 5 65535) 0) ≡ false }
{}

/// Among equals the lesser neighbour is selected, but for the one selected before.
pub fn equal_metrics()
    ensures lesser { selected_of 2 (selecting [] 2 two_updates) ≡ Some (neighbour 1) }
    ensures stays { selected_of 2 (selecting [] 2 greater_selected) ≡ Some (neighbour 2) }
    ensures nearer { selected_of 2 (selecting [] 2 (updated_by 0 2 2 (pair 5 1) greater_selected)) ≡ Some (neighbour 1) }
{}

/// Feasibility is by the advertised metric: 95 is better than 96, though 191 isn't.
pub fn unfeasible_updates()
    ensures feasible { selected_of 2 one_selected ≡ Some (neighbour 1) }
    ensures stored { find route_cmp (record { prefix = prefix 2; peer = neighbour 1 }) unfeasible_update.entries ≡ Some (entry (pair 5 96) 5604) }
    ensures before { selection_at (prefix 2) unfeasible_update ≡ Some (record { peer = neighbour 1; entry = entry (pair 5 95) 5603 }) }
    ensures after { selecting one_sent 2 unfeasible_update ≡ record unfeasible_update { selections = [] } }
    ensures other { selected_of 2 (selecting one_sent 2 (updated_by 1 2 2 (pair 6 500) unfeasible_update)) ≡ Some (neighbour 2) }
{}

/// The speaker's own prefix.
pub fn own_prefixes()
    ensures none { choice_at [] cost (prefix 2) true two_updates ≡ None }
    ensures lost { reselected [] cost (prefix 2) true greater_selected ≡ record greater_selected { selections = [] } }
{}

/// 3.5 times the interval, rounded down; the sum stops at the greatest moment.
pub fn hold_times()
    ensures odd { (entry_of_update 0 router (pair 5 0) next_hop 1601).deadline ≡ 5603 }
    ensures even { (entry_of_update 0 router (pair 5 0) next_hop 1600).deadline ≡ 5600 }
    ensures one { (entry_of_update 0 router (pair 5 0) next_hop 1).deadline ≡ 3 }
    ensures last { entry_of_update 18446744073709551612 router (pair 5 0) next_hop 1 ≡ record { router = router; distance = pair 5 0; next_hop = next_hop; interval = 1; deadline = 18446744073709551615 } }
    ensures past { (entry_of_update 18446744073709551613 router (pair 5 0) next_hop 1).deadline ≡ 18446744073709551615 }
{}

/// Received at 0 with the interval 1601.
pub fn expiries()
    ensures early { expired 5602 (route 2 1 (pair 5 95) 5603 ∷ []) ≡ route 2 1 (pair 5 95) 5603 ∷ [] }
    ensures due { expired 5603 (route 2 1 (pair 5 95) 5603 ∷ []) ≡ route 2 1 (pair 5 65535) 11206 ∷ [] }
    ensures late { expired 50000 (route 2 1 (pair 5 95) 5603 ∷ []) ≡ route 2 1 (pair 5 65535) 55603 ∷ [] }
    ensures again { expired 11205 (route 2 1 (pair 5 65535) 11206 ∷ []) ≡ route 2 1 (pair 5 65535) 11206 ∷ [] }
    ensures gone { expired 11206 (route 2 1 (pair 5 65535) 11206 ∷ []) ≡ [] }
{}

/// All but the metric and the deadline stays.
pub fn retractions()
    ensures one { retracted 100 (prefix 2) (neighbour 1) two_updates.entries ≡ route 2 1 (pair 5 65535) 5703 ∷ route 2 2 (pair 5 0) 5603 ∷ [] }
    ensures none { retracted 100 (prefix 2) (neighbour 3) two_updates.entries ≡ two_updates.entries }
    ensures again { retracted 200 (prefix 2) (neighbour 1) (route 2 1 (pair 5 65535) 5703 ∷ []) ≡ route 2 1 (pair 5 65535) 5803 ∷ [] }
    ensures all { retracted_all 100 (neighbour 2) three_prefixes.entries ≡ route 1 2 (pair 0 65535) 5703 ∷ route 3 2 (pair 0 65535) 5703 ∷ [] }
    ensures some { has_routes_from (neighbour 2) three_prefixes.entries ≡ true }
    ensures no_one { has_routes_from (neighbour 1) three_prefixes.entries ≡ false }
{}

/// A prefix stays selected without a route until it's reselected, and takes a place as long.
pub fn flushes()
    ensures entries { forgotten (neighbour 1) two_updates.entries ≡ route 2 2 (pair 5 0) 5603 ∷ [] }
    ensures selected { selected_of 2 flushed ≡ Some (neighbour 1) }
    ensures one_place { places_taken one_selected ≡ 1 }
    ensures its_place { places_taken flushed ≡ 1 }
    ensures three_places { places_taken three_prefixes ≡ 3 }
    ensures reselected { selecting one_sent 2 flushed ≡ empty }
{}

/// 10.1.0.0/16 and 10.3.0.0/16 have a route, 10.2.0.0/16 has a selection only.
pub fn walks()
    ensures first { prefix_after None three_prefixes ≡ Some (prefix 1) }
    ensures below { prefix_after (Some (prefix 0)) three_prefixes ≡ Some (prefix 1) }
    ensures second { prefix_after (Some (prefix 1)) three_prefixes ≡ Some (prefix 2) }
    ensures third { prefix_after (Some (prefix 2)) three_prefixes ≡ Some (prefix 3) }
    ensures last { prefix_after (Some (prefix 3)) three_prefixes ≡ None }
    ensures empty { prefix_after None empty ≡ None }
{}
