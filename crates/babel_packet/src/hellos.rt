//! Hello (RFC 8966, section 4.6.5).

ghost use Rattle.std.specs.Prelude.{◌≡◌, ◌<◌, vec_len, vec_capacity};
ghost use Rattle.babel_packet.specs.Contents.{put};
ghost use Rattle.babel_packet.specs.Hellos.{hello};

use crate::numbers::{has_flag, word};
use crate::placements::{push_ignored, push_message};
use crate::tails::tail_reason;
use babel_message::layout::hello as fields;
use babel_message::{Message, Placed, Reason};
use babel_value::Seqno;

#[inline]
#[tactic(auto, unfolding(crate::specs::Hellos::hello))]
pub(crate) fn read_hello(payload: &[u8], offset: usize, placed: &mut Vec<Placed>)
    requires { vec_len placed.old < vec_capacity placed.old }
    ensures { placed.new.items ≡ put placed.old.items offset (hello payload.now) }
{
    if payload.len() < fields::LEN {
        push_ignored(placed, offset, Reason::Unreadable);
    } else if let Some(reason) = tail_reason(&payload[fields::LEN..]) {
        push_ignored(placed, offset, reason);
    } else {
        let unicast = has_flag(word(payload, fields::FLAGS), fields::UNICAST);
        let seqno = Seqno(word(payload, fields::SEQNO));
        let interval = word(payload, fields::INTERVAL);
        push_message(
            placed,
            offset,
            Message::Hello {
                unicast,
                seqno,
                interval,
            },
        );
    }
}
