//! What follows from the old and the new selection (RFC 8966, sections 3.7.2 and 3.8.2).

ghost use Rattle.std.specs.Prelude.{◌≡◌, Option};
ghost use Rattle.babel_choice.specs.declared.entries.Selection.{Selection};
ghost use Rattle.babel_choice.specs.Choices.{peer_before};
ghost use Rattle.babel_state.specs.Reselection.{seqno_after, is_selected_peer};

use babel_value::{Distance, Peer, Seqno};

/// The seqno after that of the source's pair, or after the lost one if it has none.
pub fn seqno_after(pair: Option<Distance>, lost: Seqno) -> Seqno
    ensures { result ≡ seqno_after pair lost }
{
    match pair {
        Some(pair) => pair.seqno.next(),
        None => lost.next(),
    }
}

/// Whether the neighbour is the one that was selected before.
pub fn is_selected_peer(peer: &Peer, before: Option<Peer>) -> bool
    ensures { (old : Option Selection) → before ≡ peer_before old → result ≡ is_selected_peer peer.now old }
{
    match before {
        Some(before) => before.cmp(peer).is_eq(),
        None => false,
    }
}
