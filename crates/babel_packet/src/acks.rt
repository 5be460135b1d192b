//! Acknowledgment Request and Acknowledgment (RFC 8966, sections 4.6.3 and 4.6.4).

ghost use Rattle.std.specs.Prelude.{◌≡◌, ◌<◌, vec_len, vec_capacity};
ghost use Rattle.babel_packet.specs.Contents.{put};
ghost use Rattle.babel_packet.specs.Acks.{ack_request, ack};

use crate::numbers::word;
use crate::placements::{push_ignored, push_message};
use crate::tails::tail_reason;
use babel_message::layout::{ack as ack_fields, ack_request as request_fields};
use babel_message::{Message, Placed, Reason};

#[inline]
#[tactic(auto, unfolding(crate::specs::Acks::ack_request))]
pub(crate) fn read_ack_request(payload: &[u8], offset: usize, placed: &mut Vec<Placed>)
    requires { vec_len placed.old < vec_capacity placed.old }
    ensures { placed.new.items ≡ put placed.old.items offset (ack_request payload.now) }
{
    if payload.len() < request_fields::LEN {
        push_ignored(placed, offset, Reason::Unreadable);
    } else if let Some(reason) = tail_reason(&payload[request_fields::LEN..]) {
        push_ignored(placed, offset, reason);
    } else {
        let opaque = word(payload, request_fields::OPAQUE);
        let interval = word(payload, request_fields::INTERVAL);
        push_message(placed, offset, Message::AckRequest { opaque, interval });
    }
}

#[inline]
#[tactic(auto, unfolding(crate::specs::Acks::ack))]
pub(crate) fn read_ack(payload: &[u8], offset: usize, placed: &mut Vec<Placed>)
    requires { vec_len placed.old < vec_capacity placed.old }
    ensures { placed.new.items ≡ put placed.old.items offset (ack payload.now) }
{
    if payload.len() < ack_fields::LEN {
        push_ignored(placed, offset, Reason::Unreadable);
    } else if let Some(reason) = tail_reason(&payload[ack_fields::LEN..]) {
        push_ignored(placed, offset, reason);
    } else {
        let opaque = word(payload, ack_fields::OPAQUE);
        push_message(placed, offset, Message::Ack { opaque });
    }
}
