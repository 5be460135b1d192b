//! Why a network of speakers has no loop, as laws over what a network sees of its speakers. Each
//! law is the contract of a function that does nothing.

ghost use Rattle.babel_machine.specs.Acceptance.{AcceptedAreApart};
ghost use Rattle.babel_machine.specs.ForeignLaws.{NetworksAmongAreSound, HappeningsAreRuns, NoLoopOfNeighbours, NoLoopOfNextHops, SeqnosGoAround};
ghost use Rattle.babel_machine.specs.NetworkLaws.{FirstIsSound, FirstViews, EventsAreSound, EventsAreRuns, RestartsAreDrops, OrdersAgree, NextHopsArePicks, NoLoopAfterAnyEvents, NoLoopWithOneOrigin, SourcesRunTogether, SoundHasNoLoop, SoundHasNoLoopWithOneOrigin, SoundRunsTogether};

/// Configurations without a fault, M5 to M2, are apart: no two nodes share an address or a
/// router-id, and none collects sources.
pub fn accepted_configs_are_apart()
    ensures { AcceptedAreApart }
{}

/// A network of new speakers keeps the invariant, and is the machine's first state for each source.
pub fn networks_begin_sound()
    ensures sound { FirstIsSound }
    ensures view { FirstViews }
{}

/// Every event keeps the invariant: each source entry is at least as good as every pair that its
/// speaker ever sent, and each finite route is a recorded update of the node that owns its
/// neighbour's address and its next hop.
pub fn events_keep_the_invariant()
    ensures { EventsAreSound }
{}

/// Every event is a list of machine steps for each source whose router-id made at most 32,767
/// raises after it, and leaves no cycle.
pub fn events_are_machine_runs()
    ensures { EventsAreRuns }
{}

/// A restart that keeps the source table and the own seqno is one machine step for each source: the
/// node drops its pick. Nothing is sent, and no router-id is raised.
pub fn restarts_are_drops()
    ensures { RestartsAreDrops }
{}

/// On everything that was ever sent for such a source, the circular order of seqnos is that of
/// whole numbers.
pub fn seqnos_order_as_whole_numbers()
    ensures { OrdersAgree }
{}

/// The next hop of a selected route is the node of its source's pick.
pub fn next_hops_are_picks()
    ensures { NextHopsArePicks }
{}

/// After any list of events, no loop is made of selected routes that name one router-id, if it made
/// at most 32,767 raises.
pub fn no_loop_after_any_events()
    ensures { NoLoopAfterAnyEvents }
{}

/// After any list of events, the selected next hops for a prefix contain no loop, if one
/// configuration alone lists the prefix and its router-id made at most 32,767 raises.
pub fn no_loop_with_one_origin()
    ensures { NoLoopWithOneOrigin }
{}

/// One run of the machine joins the views of all such sources, event by event.
pub fn sources_run_together()
    ensures { SourcesRunTogether }
{}

/// In every network that keeps the invariant: no loop is made of selected routes that name one
/// router-id, if it made at most 32,767 raises, and none of next hops for a prefix with one origin.
/// After more events the same run goes on.
pub fn sound_networks_have_no_loop()
    ensures named { SoundHasNoLoop }
    ensures one_origin { SoundHasNoLoopWithOneOrigin }
    ensures together { SoundRunsTogether }
{}

/// Among routers of others, whatever these send: after any list of events, restarts included, each
/// source entry is at least as good as every pair that its speaker ever sent, and each finite route
/// came from a node of ours or from one of theirs.
pub fn networks_among_foreign_routers_are_sound()
    ensures { NetworksAmongAreSound }
{}

/// Among routers of others, every event is a list of steps of the machine with picks from outside,
/// for each source whose seqnos kept to one half of the circle. It leaves no cycle of our nodes.
pub fn happenings_are_machine_runs()
    ensures { HappeningsAreRuns }
{}

/// Whatever other routers send from their own addresses, ours make no loop among themselves of
/// selected routes that name one router-id, if its seqnos kept to one half of the circle. Traffic
/// follows next hops: so none of theirs names an address of ours.
pub fn no_loop_among_foreign_routers()
    ensures neighbours { NoLoopOfNeighbours }
    ensures next_hops { NoLoopOfNextHops }
{}

/// Why the seqnos have to keep to one half: around the circle their order isn't transitive (RFC
/// 8966, section 3.2.1).
pub fn seqnos_around_the_circle_have_no_order()
    ensures { SeqnosGoAround }
{}
