//! The finite updates that nodes hear from routers of others.

ghost use Rattle.std.specs.Prelude.{◌≡◌, ◌<◌, ◌+◌, ◌≤◌, ◌++◌, [], ◌∷◌, length, vec_len, vec_capacity, IfOk, IfSome, OnOk, MatchOption};
ghost use Rattle.babel_value.specs.Seqnos.{seqno_modulus};
ghost use Rattle.babel_packet.specs.Meaning.{meaning, messages_of};
ghost use Rattle.babel_state.specs.Seen.{updates_among};
ghost use Rattle.babel_net.specs.Networks.{updates_read};
ghost use Rattle.babel_mixed.specs.Updates.{HaveWords, updates_at};

use babel_message::{Content, Message, Placed, Refusal};
use babel_packet::decode;
use babel_value::{Addr, Distance, Prefix, RouterId};
use std::alloc::{AllocError, Global};
use std::marker::Model;

/// A finite update that was heard (RFC 8966, section 4.6.9).
#[derive(Clone, Copy)]
pub struct HeardUpdate {
    /// The prefix of the route.
    pub prefix: Prefix,
    /// The router that originates the prefix.
    pub router: RouterId,
    /// The seqno and the metric.
    pub distance: Distance,
    /// The next hop.
    pub next_hop: Addr,
}

impl Model for HeardUpdate {
    ghost use Rattle.babel_state.specs.Seen.{UpdateValue};

    ghost Value = { UpdateValue };

    ghost view = { λ u. record { prefix = u.prefix; router = u.router; distance = u.distance; next_hop = u.next_hop } };

    ghost inverse = { λ u. record { prefix = u.prefix; router = u.router; distance = u.distance; next_hop = u.next_hop } };
}

/// The finite updates of the octets from the source address. Octets that can't be read have none.
pub(crate) fn updates_heard(
    alloc: Global,
    octets: &[u8],
    source: Addr,
) -> Result<Vec<HeardUpdate>, AllocError>
    ensures ok { IfOk result (λ updates. updates.items ≡ updates_read (meaning octets.now source)) }
    ensures seqnos { IfOk result (λ updates. HaveWords updates.items) }
{
    match decode(alloc, octets, source) {
        Ok(placed) => updates_in(alloc, &placed),
        Err(Refusal::Memory) => Err(AllocError),
        Err(_) => Ok(Vec::new(alloc)),
    }
}

/// The finite updates of a datagram that was read.
fn updates_in(alloc: Global, placed: &[Placed]) -> Result<Vec<HeardUpdate>, AllocError>
    ensures ok { IfOk result (λ updates. updates.items ≡ updates_among (messages_of placed.now)) }
    ensures seqnos { IfOk result (λ updates. HaveWords updates.items) }
{
    let mut updates = Vec::new(alloc);
    for place in placed {
        push_update(&mut updates, place)?;
    }
    Ok(updates)
}

/// Appends the finite update at the place, if there is one.
#[tactic(auto, using(crate::proofs::HeardUpdates::words_more, crate::proofs::HeardUpdates::none_more))]
fn push_update(updates: &mut Vec<HeardUpdate>, place: &Placed) -> Result<(), AllocError>
    ensures items { OnOk result (updates.new.items ≡ updates.old.items ++ updates_at place.now.content) }
    ensures seqnos { OnOk result (HaveWords updates.old.items → HaveWords updates.new.items) }
{
    if let Some(update) = update_at(place) {
        updates.push(update)?;
    }
    Ok(())
}

/// The finite update at the place, if there is one.
fn update_at(place: &Placed) -> Option<HeardUpdate>
    ensures update { MatchOption result (updates_at place.now.content ≡ []) (λ update. updates_at place.now.content ≡ update ∷ []) }
    ensures seqno { IfSome result (λ update. update.distance.seqno < seqno_modulus) }
{
    match place.content {
        Content::Message(
            Message::Update {
                prefix,
                router,
                next_hop,
                seqno,
                metric,
                ..
            },
        ) => {
            word_fits(seqno.0);
            Some(HeardUpdate {
                prefix,
                router,
                distance: Distance { seqno, metric },
                next_hop,
            })
        }
        _ => None,
    }
}

/// A seqno has 16 bits.
fn word_fits(word: u16)
    ensures { word < seqno_modulus }
{}

/// Appends the updates. There is room for them.
pub(crate) fn record(heard: &mut Vec<HeardUpdate>, updates: &[HeardUpdate])
    requires { vec_len heard.old + length updates.now ≤ vec_capacity heard.old }
    ensures { heard.new.items ≡ heard.old.items ++ updates.now }
{
    if heard.extend_from_slice(updates).is_err() {
        unreachable!();
    }
}
