//! Laws of the neighbours, each the contract of a function that does nothing.

ghost use Rattle.std.specs.Prelude.{◌≡◌, ◌<◌, ◌↔◌, ℕ, Bool, [], Some, IsNone, IsTrue, if◌then◌else◌};
ghost use Rattle.std.specs.FinMap.{find, is_sorted};
ghost use Rattle.std.specs.Option.{option_map, option_and_then};
ghost use Rattle.babel_value.specs.Metrics.{infinity};
ghost use Rattle.babel_value.specs.Orders.{peer_cmp};
ghost use Rattle.babel_value.specs.declared.keys.Peer.{Peer};
ghost use Rattle.babel_link.specs.declared.links.Link.{Link};
ghost use Rattle.babel_link.specs.Links.{hello_link, ihu_link, ticked_link, is_txcost_due, FallsSilent};
ghost use Rattle.babel_link.specs.Neighbours.{Links, KeepsOrder, ChangesOnly, AreQuietUntil, link_of, gone_of, hello_of, ihu_of, tick_of};

/// Each change leaves the neighbours in the order of the peers.
pub fn neighbours_stay_in_order()
    ensures hello { (now : ℕ) (peer : Peer) (unicast : Bool) (n interval : ℕ) → KeepsOrder (hello_of now peer unicast n interval) }
    ensures ihu { (now : ℕ) (peer : Peer) (rxcost interval : ℕ) → KeepsOrder (ihu_of now peer rxcost interval) }
    ensures tick { (now : ℕ) → KeepsOrder (tick_of now) }
{}

/// A Hello and an IHU change their own neighbour alone, and a tick each neighbour by itself.
pub fn neighbours_by_their_peers()
    ensures hello { (now : ℕ) (peer : Peer) (unicast : Bool) (n interval : ℕ) (links : Links)
        → find peer_cmp peer (hello_of now peer unicast n interval links) ≡ Some (hello_link now unicast n interval (link_of peer links)) }
    ensures hello_alone { (now : ℕ) (peer : Peer) (unicast : Bool) (n interval : ℕ) (links : Links)
        → ChangesOnly peer links (hello_of now peer unicast n interval links) }
    ensures ihu { (now : ℕ) (peer : Peer) (rxcost interval : ℕ) (links : Links)
        → find peer_cmp peer (ihu_of now peer rxcost interval links) ≡ option_map (ihu_link now rxcost interval) (find peer_cmp peer links) }
    ensures ihu_alone { (now : ℕ) (peer : Peer) (rxcost interval : ℕ) (links : Links)
        → ChangesOnly peer links (ihu_of now peer rxcost interval links) }
    ensures tick { (now : ℕ) (peer : Peer) (links : Links) → IsTrue (is_sorted peer_cmp links)
        → find peer_cmp peer (tick_of now links) ≡ option_and_then (ticked_link now) (find peer_cmp peer links) }
{}

/// What a tick makes of one neighbour. It goes if and only if a deadline of Hellos is due and then
/// no Hello is remembered. Its txcost is infinite from the tick at which that is due.
pub fn neighbours_fall_silent()
    ensures gone { (now : ℕ) (link : Link) → IsNone (ticked_link now link) ↔ FallsSilent now link }
    ensures txcost { (now : ℕ) (link after : Link) → ticked_link now link ≡ Some after
        → after.txcost ≡ (if is_txcost_due now link then infinity else link.txcost) }
    ensures nothing_due { (now moment : ℕ) (links : Links) → AreQuietUntil moment links → now < moment
        → (tick_of now links ≡ links) × (gone_of now links ≡ []) }
{}
