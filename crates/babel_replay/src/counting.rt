//! The messages of a datagram, counted.

ghost use Rattle.std.specs.Prelude.{◌≡◌, None};
ghost use Rattle.babel_packet.specs.Meaning.{header_refusal, body_of};
ghost use Rattle.babel_tlv.specs.Split.{places_of};
ghost use Rattle.babel_replay.specs.Counts.{CountsMessages, messages_among};

use babel_message::{HEADER_LEN, NEXT_HOP, ROUTER_ID};
use babel_packet::laws::reasons_are_the_first_that_apply;
use babel_tlv::walk;

/// Where the length of the body is in a datagram.
const BODY_LEN_AT: usize = 2;

/// How many messages a datagram of the builder has. Router-Id and Next Hop only set state for
/// Updates.
pub fn count_messages(datagram: &[u8]) -> usize
    ensures { CountsMessages datagram.now result }
{
    reasons_are_the_first_that_apply();
    count_tlvs(body(datagram))
}

/// The body of a datagram that has one.
#[tactic(auto, unfolding(babel_packet::specs::Numbers::word))]
fn body(datagram: &[u8]) -> &[u8]
    ensures { header_refusal datagram.now ≡ None → result.now ≡ body_of datagram.now }
{
    if datagram.len() < HEADER_LEN {
        return &[];
    }
    let high = usize::from(datagram[BODY_LEN_AT]);
    let low = usize::from(datagram[BODY_LEN_AT + 1]);
    let end = HEADER_LEN + 256 * high + low;
    if datagram.len() < end {
        return &[];
    }
    &datagram[HEADER_LEN..end]
}

/// How many TLVs of a body are messages.
fn count_tlvs(body: &[u8]) -> usize
    ensures { result ≡ messages_among (places_of body.now) }
{
    let mut count = 0usize;
    for tlv in walk(body) {
        if !matches!(tlv.kind, ROUTER_ID | NEXT_HOP) {
            count += 1;
        }
    }
    count
}
