//! Two speakers of ours and a router of others, which sends to each of them what it likes. What it
//! may send without making a loop of the two, and two things that make one.

ghost use Rattle.std.specs.Prelude.{◌≡◌, [], ◌∷◌, Some, None};
ghost use Rattle.babel_state.specs.declared.notes.Verdict.TheVariants as verdicts;
ghost use Rattle.babel_examples.specs.ExampleStates.{addr, peer, update, verdict, datagram};
ghost use Rattle.babel_examples.specs.LostRoutes.{selected_peer};
ghost use Rattle.babel_examples.specs.ForeignNodes.{selected_hop, at_40000, at_0, at_20000, over_3, over_2, towards_3, towards_2, honest, misled, passed_on, misled_too, left_alone, origin, forged, forged_back, after_restart, forgetful};

/// A lie about a metric draws both to the router of others, one over the other. Once it retracts,
/// neither what was sent before the lie nor what was sent since is feasible where the lie was
/// passed on.
pub fn a_lie_about_a_metric()
    ensures before { (datagram 0 honest).messages ≡ update 2 9 0 596 ∷ [] }
    ensures misled { selected_peer misled ≡ Some (peer 1) }
    ensures passed_on { passed_on.messages ≡ update 3 9 0 96 ∷ [] }
    ensures misled_too { selected_peer misled_too ≡ Some (peer 3) }
{}

/// The router of others retracts its lie: no route is left where it was passed on.
pub fn a_retraction()
    ensures left_alone { selected_peer left_alone ≡ None }
{}

/// A greater seqno for a prefix of ours: one is misled, and the origin ignores what comes back to
/// it.
pub fn a_greater_seqno_for_our_prefix()
    ensures misled { selected_peer forged ≡ Some (peer 1) }
    ensures passed_on { (datagram 0 forged).messages ≡ update 3 2 5 96 ∷ [] }
    ensures ignored { verdict 1 3 (update 3 2 5 96) origin ≡ verdicts.OwnRouterId }
    ensures unchanged { forged_back ≡ origin }
    ensures forged_to_itself { verdict 1 1 (update 1 2 5 0) origin ≡ verdicts.OwnRouterId }
{}

/// A restart that keeps the source table doesn't take the route that leads over itself. One that
/// forgets it does.
pub fn a_restart_between()
    ensures not_taken { selected_peer after_restart ≡ None }
    ensures taken { selected_peer forgetful ≡ Some (peer 2) }
{}

/// Why the seqnos have to keep to one half of the circle: 40,000, 20,000 and 0 loop the two. Each
/// of them takes a later seqno than all that it sent, from the other one.
pub fn seqnos_around_the_circle_loop_two()
    ensures sent_40000 { (datagram 0 at_40000).messages ≡ update 2 9 40000 96 ∷ [] }
    ensures sent_0 { (datagram 2 at_0).messages ≡ update 2 9 0 96 ∷ [] }
    ensures sent_20000 { (datagram 0 at_20000).messages ≡ update 3 9 20000 96 ∷ [] }
    ensures over_3 { selected_peer over_3 ≡ Some (peer 3) }
    ensures over_2 { selected_peer over_2 ≡ Some (peer 2) }
{}

/// Why no update of others may name ours as next hops: the two select the other one's routes, and
/// forward to each other.
pub fn next_hops_of_ours_loop_two()
    ensures heard_of_3 { selected_peer towards_3 ≡ Some (peer 1) }
    ensures towards_3 { selected_hop towards_3 ≡ Some (addr 3) }
    ensures heard_of_2 { selected_peer towards_2 ≡ Some (peer 1) }
    ensures towards_2 { selected_hop towards_2 ≡ Some (addr 2) }
{}
