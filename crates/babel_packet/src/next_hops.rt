//! Next Hop (RFC 8966, section 4.6.8).

ghost use Rattle.std.specs.Prelude.{◌≡◌, ◌<◌, vec_len, vec_capacity};
ghost use Rattle.babel_message.specs.declared.placements.Content.TheVariants.{State};
ghost use Rattle.babel_message.specs.Layout as layout;
ghost use Rattle.babel_packet.specs.Contents.{put};
ghost use Rattle.babel_packet.specs.Tails.{after_tail};
ghost use Rattle.babel_packet.specs.NextHops.{next_hop};
ghost use Rattle.babel_packet.specs.Running.{after};

use crate::addresses::{ipv4_at, ipv6_at, link_local_at};
use crate::parser_state::ParserState;
use crate::placements::{push_ignored, push_state};
use crate::tails::tail_reason;
use babel_message::layout::addresses::{
    AE_IPV4, AE_IPV6, AE_LINK_LOCAL, IPV4_LEN, IPV6_LEN, LINK_LOCAL_LEN,
};
use babel_message::layout::next_hop as fields;
use babel_message::{Placed, Reason};

/// It is a call, so that the parser state is in memory. As variables of the walk its parts would be
/// moved at each TLV.
#[inline(never)]
#[tactic(auto, unfolding(crate::specs::NextHops::next_hop, crate::specs::NextHops::next_hop_of, crate::specs::RouterIds::named_router, crate::specs::NextHops::named_hop4, crate::specs::NextHops::named_hop6, crate::specs::LookBack::update_address))]
pub(crate) fn read_next_hop(
    payload: &[u8],
    offset: usize,
    state: &mut ParserState,
    placed: &mut Vec<Placed>,
)
    requires { vec_len placed.old < vec_capacity placed.old }
    ensures placed { placed.new.items ≡ put placed.old.items offset (next_hop payload.now) }
    ensures state { state.new ≡ after state.old layout.next_hop payload.now }
{
    let length = payload.len();
    if length < fields::LEN {
        return push_ignored(placed, offset, Reason::Unreadable);
    }
    match payload[fields::AE] {
        AE_IPV4 if length >= fields::LEN + IPV4_LEN => {
            state.hop4 = Some(ipv4_at(payload, fields::LEN));
            push_state_after(&payload[fields::LEN + IPV4_LEN..], offset, placed)
        }
        AE_IPV6 if length >= fields::LEN + IPV6_LEN => {
            state.hop6 = Some(ipv6_at(payload, fields::LEN));
            push_state_after(&payload[fields::LEN + IPV6_LEN..], offset, placed)
        }
        AE_LINK_LOCAL if length >= fields::LEN + LINK_LOCAL_LEN => {
            state.hop6 = Some(link_local_at(payload, fields::LEN));
            push_state_after(&payload[fields::LEN + LINK_LOCAL_LEN..], offset, placed)
        }
        AE_IPV4 | AE_IPV6 | AE_LINK_LOCAL => push_ignored(placed, offset, Reason::Unreadable),
        _ => push_ignored(placed, offset, Reason::UnknownEncoding),
    }
}

#[inline]
fn push_state_after(tail: &[u8], offset: usize, placed: &mut Vec<Placed>)
    requires { vec_len placed.old < vec_capacity placed.old }
    ensures { placed.new.items ≡ put placed.old.items offset (after_tail tail.now State) }
{
    match tail_reason(tail) {
        Some(reason) => push_ignored(placed, offset, reason),
        None => push_state(placed, offset),
    }
}
