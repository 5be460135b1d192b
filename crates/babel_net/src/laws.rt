//! Why every network keeps what loop freedom follows from, as laws over its definitions. Each law
//! is the contract of a function that does nothing.

ghost use Rattle.babel_net.specs.Laws.{FirstNetworksAreSound, EventsHappen, EventsKeepNetworks};

use babel_machine::laws::{
    accepted_configs_are_apart, events_keep_the_invariant, networks_begin_sound,
};
use babel_state::laws::{
    calls_move, datagrams_send, groups_keep_the_rest, items_mean_messages, restarts_are_seen,
    selected_routes_are_good, states_are_well_formed,
};

/// Accepted configurations make a network that keeps the invariant.
pub fn networks_begin()
    ensures { FirstNetworksAreSound }
{
    accepted_configs_are_apart();
    networks_begin_sound();
    selected_routes_are_good();
    states_are_well_formed();
}

/// Every event of a network happens in what is seen of it, and keeps its invariant.
pub fn networks_go_on()
    ensures happens { EventsHappen }
    ensures kept { EventsKeepNetworks }
{
    calls_move();
    groups_keep_the_rest();
    datagrams_send();
    states_are_well_formed();
    items_mean_messages();
    restarts_are_seen();
    events_keep_the_invariant();
}
