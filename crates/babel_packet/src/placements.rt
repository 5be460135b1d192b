//! Places are appended to the list of them, within its capacity.

ghost use Rattle.std.specs.Prelude.{◌≡◌, ◌<◌, vec_len, vec_capacity};
ghost use Rattle.babel_packet.specs.Contents.{put, means, ignored};
ghost use Rattle.babel_message.specs.declared.placements.Content.TheVariants.{State};

use babel_message::{Content, Message, Placed, Reason};

/// Appends a place within the capacity.
#[inline(always)]
fn push(placed: &mut Vec<Placed>, offset: usize, content: Content)
    requires { vec_len placed.old < vec_capacity placed.old }
    ensures { placed.new.items ≡ put placed.old.items offset content }
{
    // Names the type that a `Placed` has inside, which the prover needs here.
    let _inner: Option<Message> = None;
    placed.push_reserved(Placed { offset, content });
}

#[inline(always)]
pub(crate) fn push_message(placed: &mut Vec<Placed>, offset: usize, message: Message)
    requires { vec_len placed.old < vec_capacity placed.old }
    ensures { placed.new.items ≡ put placed.old.items offset (means message) }
{
    push(placed, offset, Content::Message(message));
}

#[inline(always)]
pub(crate) fn push_state(placed: &mut Vec<Placed>, offset: usize)
    requires { vec_len placed.old < vec_capacity placed.old }
    ensures { placed.new.items ≡ put placed.old.items offset State }
{
    push(placed, offset, Content::State);
}

#[inline(always)]
pub(crate) fn push_ignored(placed: &mut Vec<Placed>, offset: usize, reason: Reason)
    requires { vec_len placed.old < vec_capacity placed.old }
    ensures { placed.new.items ≡ put placed.old.items offset (ignored reason) }
{
    push(placed, offset, Content::Ignored(reason));
}
