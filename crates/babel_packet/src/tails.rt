//! Sub-TLVs, which follow the fields of a TLV (RFC 8966, section 4.4).

ghost use Rattle.std.specs.Prelude.{◌≡◌, ◌<◌, None, IsTrue, IsFalse, vec_len, vec_capacity};
ghost use Rattle.babel_message.specs.declared.placements.Content.{Content};
ghost use Rattle.babel_packet.specs.Contents.{put};
ghost use Rattle.babel_packet.specs.Tails as tails;
ghost use Rattle.babel_packet.specs.Tails.{after_tail};

use crate::placements::push_ignored;
use babel_message::layout::kinds::MANDATORY;
use babel_message::{Placed, Reason};
use babel_tlv::split;

/// Why a TLV with these octets after its fields is ignored, if it is.
#[inline]
#[tactic(auto, unfolding(crate::specs::Tails::tail_reason))]
pub(crate) fn tail_reason(tail: &[u8]) -> Option<Reason>
    ensures { result ≡ tails.tail_reason tail.now }
{
    if tail.is_empty() {
        return None;
    }
    sub_tlvs_reason(tail)
}

/// The rare case: there are sub-TLVs.
#[inline(never)]
#[tactic(auto, unfolding(crate::specs::Tails::tail_reason))]
fn sub_tlvs_reason(tail: &[u8]) -> Option<Reason>
    ensures { result ≡ tails.tail_reason tail.now }
{
    let Ok(subs) = split(tail) else {
        return Some(Reason::TailOverrun);
    };
    for sub in subs {
        if sub.kind >= MANDATORY {
            return Some(Reason::MandatorySubTlv(sub.kind));
        }
    }
    None
}

/// Whether a TLV with these octets after its fields is taken. If it isn't, its place is appended:
/// that it is ignored, and why.
#[inline]
#[tactic(auto, unfolding(crate::specs::Tails::tail_reason))]
pub(crate) fn is_taken(tail: &[u8], offset: usize, placed: &mut Vec<Placed>) -> bool
    requires { vec_len placed.old < vec_capacity placed.old }
    ensures taken { IsTrue result → tails.tail_reason tail.now ≡ None }
    ensures kept { IsTrue result → placed.new ≡ placed.old }
    ensures ignored { IsFalse result → (content : Content) → placed.new.items ≡ put placed.old.items offset (after_tail tail.now content) }
{
    if tail.is_empty() {
        return true;
    }
    are_taken(tail, offset, placed)
}

/// The rare case: there are sub-TLVs.
#[inline(never)]
fn are_taken(tail: &[u8], offset: usize, placed: &mut Vec<Placed>) -> bool
    requires { vec_len placed.old < vec_capacity placed.old }
    ensures taken { IsTrue result → tails.tail_reason tail.now ≡ None }
    ensures kept { IsTrue result → placed.new ≡ placed.old }
    ensures ignored { IsFalse result → (content : Content) → placed.new.items ≡ put placed.old.items offset (after_tail tail.now content) }
{
    match sub_tlvs_reason(tail) {
        Some(reason) => {
            push_ignored(placed, offset, reason);
            false
        }
        None => true,
    }
}
