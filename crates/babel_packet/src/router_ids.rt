//! Router-Id (RFC 8966, section 4.6.7).

ghost use Rattle.std.specs.Prelude.{◌≡◌, ◌<◌, vec_len, vec_capacity};
ghost use Rattle.babel_message.specs.Layout as layout;
ghost use Rattle.babel_packet.specs.Contents.{put};
ghost use Rattle.babel_packet.specs.RouterIds.{router_id};
ghost use Rattle.babel_packet.specs.Running.{after};

use crate::parser_state::ParserState;
use crate::placements::{push_ignored, push_state};
use crate::tails::tail_reason;
use babel_message::layout::addresses::ROUTER_ID_LEN;
use babel_message::layout::router_id as fields;
use babel_message::{Placed, Reason};

#[inline]
#[tactic(auto, unfolding(crate::specs::RouterIds::router_id, crate::specs::RouterIds::named_router, crate::specs::NextHops::named_hop4, crate::specs::NextHops::named_hop6, crate::specs::LookBack::update_address))]
pub(crate) fn read_router_id(
    payload: &[u8],
    offset: usize,
    state: &mut ParserState,
    placed: &mut Vec<Placed>,
)
    requires { vec_len placed.old < vec_capacity placed.old }
    ensures placed { placed.new.items ≡ put placed.old.items offset (router_id payload.now) }
    ensures state { state.new ≡ after state.old layout.router_id payload.now }
{
    if payload.len() < fields::LEN {
        return push_ignored(placed, offset, Reason::Unreadable);
    }
    let mut octets = [0; ROUTER_ID_LEN];
    octets.copy_from_slice(&payload[fields::VALUE..fields::LEN]);
    state.router = Some(octets);
    match tail_reason(&payload[fields::LEN..]) {
        Some(reason) => push_ignored(placed, offset, reason),
        None => push_state(placed, offset),
    }
}
