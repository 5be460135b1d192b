//! I Heard You (RFC 8966, section 4.6.6).

ghost use Rattle.std.specs.Prelude.{◌≡◌, ◌<◌, ◌≤◌, length, vec_len, vec_capacity};
ghost use Rattle.babel_message.specs.Layout.{ihu_len};
ghost use Rattle.babel_packet.specs.Contents.{put};
ghost use Rattle.babel_packet.specs.Tails.{after_tail};
ghost use Rattle.babel_packet.specs.Ihus.{ihu, ihu_to};

use crate::addresses::{ipv4_at, ipv6_at, link_local_at};
use crate::numbers::word;
use crate::placements::{push_ignored, push_message};
use crate::tails::tail_reason;
use babel_message::layout::addresses::{
    AE_IPV4, AE_IPV6, AE_LINK_LOCAL, AE_WILDCARD, IPV4_LEN, IPV6_LEN, LINK_LOCAL_LEN,
};
use babel_message::layout::ihu as fields;
use babel_message::{Message, Placed, Reason};
use babel_value::{Addr, Metric};

#[inline]
#[tactic(auto, unfolding(crate::specs::Ihus::ihu, crate::specs::Ihus::ihu_of))]
pub(crate) fn read_ihu(payload: &[u8], offset: usize, placed: &mut Vec<Placed>)
    requires { vec_len placed.old < vec_capacity placed.old }
    ensures { placed.new.items ≡ put placed.old.items offset (ihu payload.now) }
{
    let length = payload.len();
    if length < fields::LEN {
        return push_ignored(placed, offset, Reason::Unreadable);
    }
    match payload[fields::AE] {
        AE_WILDCARD => read_ihu_to(None, &payload[fields::LEN..], payload, offset, placed),
        AE_IPV4 if length >= fields::LEN + IPV4_LEN => {
            let to = Addr::V4(ipv4_at(payload, fields::LEN));
            read_ihu_to(
                Some(to),
                &payload[fields::LEN + IPV4_LEN..],
                payload,
                offset,
                placed,
            )
        }
        AE_IPV6 if length >= fields::LEN + IPV6_LEN => {
            let to = Addr::V6(ipv6_at(payload, fields::LEN));
            read_ihu_to(
                Some(to),
                &payload[fields::LEN + IPV6_LEN..],
                payload,
                offset,
                placed,
            )
        }
        AE_LINK_LOCAL if length >= fields::LEN + LINK_LOCAL_LEN => {
            let to = Addr::V6(link_local_at(payload, fields::LEN));
            read_ihu_to(
                Some(to),
                &payload[fields::LEN + LINK_LOCAL_LEN..],
                payload,
                offset,
                placed,
            )
        }
        AE_IPV4 | AE_IPV6 | AE_LINK_LOCAL => push_ignored(placed, offset, Reason::Unreadable),
        _ => push_ignored(placed, offset, Reason::UnknownEncoding),
    }
}

/// The content of an IHU to this receiver, whose fields are there.
#[inline]
fn read_ihu_to(
    to: Option<Addr>,
    tail: &[u8],
    payload: &[u8],
    offset: usize,
    placed: &mut Vec<Placed>,
)
    requires fields { ihu_len ≤ length payload.now }
    requires room { vec_len placed.old < vec_capacity placed.old }
    ensures { placed.new.items ≡ put placed.old.items offset (after_tail tail.now (ihu_to to payload.now)) }
{
    let rxcost = Metric(word(payload, fields::RXCOST));
    let interval = word(payload, fields::INTERVAL);
    if let Some(reason) = tail_reason(tail) {
        push_ignored(placed, offset, reason);
    } else if interval == 0 {
        push_ignored(placed, offset, Reason::ZeroInterval);
    } else if rxcost.0 == 0 {
        push_ignored(placed, offset, Reason::ZeroRxcost);
    } else {
        push_message(
            placed,
            offset,
            Message::Ihu {
                to,
                rxcost,
                interval,
            },
        );
    }
}
