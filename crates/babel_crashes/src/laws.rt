//! Why crashes make no loop, as laws over networks. Each law is the contract of a function that
//! does nothing.

ghost use Rattle.babel_crashes.specs.CrashLaws.{LivesAreEvents, CrashesAreRestartEvents, LivesAreRestartEvents};
ghost use Rattle.babel_crashes.specs.IntakeLaws.{StepsAreEvents, CrashesWithIntakesAreRestartEvents};

use babel_machine::laws::sound_networks_have_no_loop;
use babel_net::laws::networks_go_on;
use babel_state::laws::{groups_keep_the_rest, settings_stay};
use babel_wire::laws::intakes_are_covered;

/// Turns of a speaker at a node of a network, and datagrams that it takes in, requests that it makes,
/// links that it loses and items that it groups between them, are events of the network.
pub fn steps_are_events()
    ensures { StepsAreEvents }
{
    settings_stay();
    groups_keep_the_rest();
}

/// Such steps, and restarts between them, are events of the network too.
pub fn lives_are_events()
    ensures { LivesAreEvents }
{
    steps_are_events();
}

/// A node that is killed anywhere in its steps, and started from what is on disk, makes the event
/// Restart after some whole steps. Every datagram that was sent is recorded by then; the others are
/// lost. So the network has no loop.
pub fn crashes_with_intakes_are_restart_events()
    ensures { CrashesWithIntakesAreRestartEvents }
{
    steps_are_events();
    intakes_are_covered();
    networks_go_on();
    sound_networks_have_no_loop();
}

/// So it is if its steps are turns alone, and however often it was killed earlier, whatever its
/// steps are.
pub fn crashes_are_restart_events()
    ensures once { CrashesAreRestartEvents }
    ensures again { LivesAreRestartEvents }
{
    lives_are_events();
    crashes_with_intakes_are_restart_events();
    networks_go_on();
    sound_networks_have_no_loop();
}
