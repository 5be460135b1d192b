//! Laws of the datagrams that a speaker sends, each the contract of a function that does nothing.

ghost use Rattle.babel_speaker.specs.PendingItems.{DatagramsTakeItems};
ghost use Rattle.babel_speaker.specs.Sending.{FirstMessagesFit};
ghost use Rattle.babel_speaker.specs.Versions.{CountsAddUp};

/// Any message fits into a datagram that has no other, if the target's interface has an address to
/// send from.
#[tactic(auto, using(crate::proofs::FirstFits::first_fits))]
pub fn first_messages_fit()
    ensures { FirstMessagesFit }
{}

/// Each datagram takes at least one of the pending items. So at most as many datagrams follow one
/// another as items are pending.
#[tactic(auto, using(crate::proofs::TakenItems::datagrams_take))]
pub fn datagrams_take_items()
    ensures { DatagramsTakeItems }
{}

/// What the counts of a speaker show of two calls, one after the other, they show of both together.
/// So a caller may compare them after any number of calls.
#[tactic(auto, using(crate::proofs::Counting::add_up))]
pub fn counts_add_up()
    ensures { CountsAddUp }
{}
