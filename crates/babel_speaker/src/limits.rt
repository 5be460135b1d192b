//! A law of the code's limits: the contract of a function that does nothing.

ghost use Rattle.std.specs.Prelude.{◌≡◌};
ghost use Rattle.babel_sources.specs.declared.sources.TheConstants.{SOURCE_PLACES, COLLECTION_TIME};
ghost use Rattle.babel_route.specs.declared.routes.TheConstants.{PREFIX_PLACES, ROUTE_PLACES};
ghost use Rattle.babel_route.specs.Rooms.{most_routes, most_listed_prefixes};
ghost use Rattle.babel_sources.specs.Rooms.{most_sources, collection_time};
ghost use Rattle.babel_state.specs.declared.limits.TheConstants.{MAX_INTERFACES, MAX_PEERS, MAX_PREFIXES, MAX_REQUESTS, MAX_PENDING, MAX_COST, MAX_HELLO_INTERVAL, REQUEST_HOPS, REQUEST_WAIT, LAST_REQUEST_WAIT};
ghost use Rattle.babel_state.specs.Limits.{most_interfaces, most_peers, most_prefixes, most_requests, most_pending, greatest_cost, longest_hello, request_hops, first_wait, last_wait};
ghost use Rattle.babel_state.specs.Grouping.{most_groups};
ghost use Rattle.babel_speaker.specs.declared.tables.groups.TheConstants.{MAX_GROUPS};
ghost use Rattle.babel_speaker.specs.declared.tables.timers.TheConstants.{IHU_HELLOS, UPDATE_HELLOS};
ghost use Rattle.babel_speaker.specs.Intervals.{hellos_an_ihu, hellos_an_update};

/// The constants of the code are the numbers of the definitions.
pub fn limits_are_those_of_the_code()
    ensures interfaces { (MAX_INTERFACES ≡ most_interfaces) × (MAX_PEERS ≡ most_peers) }
    ensures prefixes { MAX_PREFIXES ≡ most_prefixes }
    ensures requests { MAX_REQUESTS ≡ most_requests }
    ensures sources { SOURCE_PLACES ≡ most_sources }
    ensures routes { (ROUTE_PLACES ≡ most_routes) × (PREFIX_PLACES ≡ most_listed_prefixes) }
    ensures pending { MAX_PENDING ≡ most_pending }
    ensures groups { MAX_GROUPS ≡ most_groups }
    ensures cost { MAX_COST ≡ greatest_cost }
    ensures hello { MAX_HELLO_INTERVAL ≡ longest_hello }
    ensures intervals { (IHU_HELLOS ≡ hellos_an_ihu) × (UPDATE_HELLOS ≡ hellos_an_update) }
    ensures hops { REQUEST_HOPS ≡ request_hops }
    ensures waits { (REQUEST_WAIT ≡ first_wait) × (LAST_REQUEST_WAIT ≡ last_wait) }
    ensures collection { COLLECTION_TIME ≡ collection_time }
{}
