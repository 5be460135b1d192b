//! Why a network of ours among routers of others makes no loop, whatever these send, as laws over
//! its definitions. Each law is the contract of a function that does nothing.

ghost use Rattle.babel_mixed.specs.Mixed.{FirstMixedAreSound, EventsKeepMixed, HearingKeepsMixed, MixedHasNoLoop};

use babel_machine::laws::{
    accepted_configs_are_apart, networks_among_foreign_routers_are_sound, networks_begin_sound,
    no_loop_among_foreign_routers,
};
use babel_packet::laws::decoded_are_sendable;
use babel_state::laws::{
    calls_move, datagrams_send, groups_keep_the_rest, items_mean_messages, restarts_are_seen,
    selected_routes_are_good, states_are_well_formed,
};

/// Accepted configurations make a network among routers of others, from which nothing was heard.
pub fn mixed_begin()
    ensures { FirstMixedAreSound }
{
    accepted_configs_are_apart();
    networks_begin_sound();
    selected_routes_are_good();
    states_are_well_formed();
}

/// Every event of ours, and every datagram that is heard, keeps what holds of such a network.
pub fn mixed_go_on()
    ensures events { EventsKeepMixed }
    ensures hearing { HearingKeepsMixed }
{
    calls_move();
    groups_keep_the_rest();
    datagrams_send();
    states_are_well_formed();
    items_mean_messages();
    restarts_are_seen();
    decoded_are_sendable();
    networks_among_foreign_routers_are_sound();
}

/// So our nodes make no loop among themselves.
pub fn mixed_networks_have_no_loop()
    ensures { MixedHasNoLoop }
{
    no_loop_among_foreign_routers();
}
