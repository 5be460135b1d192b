//! A walk over the neighbours.

use crate::Link;
use babel_value::Peer;
use std::marker::Model;

/// The neighbours in ascending order. A clause sees the list of those that are still to come.
#[derive(Drop)]
pub struct Peers<'a> {
    links: &'a [(Peer, Link)],
}

impl<'a> Model for Peers<'a> {
    ghost use Rattle.std.specs.Prelude.{List};
    ghost use Rattle.babel_value.specs.declared.keys.Peer.{Peer};
    ghost use Rattle.babel_link.specs.Neighbours.{peers_of};

    ghost Value = { List Peer };

    ghost view = { λ p. peers_of p.links.now };
}

impl<'a> Peers<'a> {
    ghost use Rattle.std.specs.Prelude.{◌≡◌};
    ghost use Rattle.babel_link.specs.Neighbours.{peers_of};

    pub(crate) fn new(links: &'a [(Peer, Link)]) -> Peers<'a>
        ensures { result ≡ peers_of links.now }
    {
        Peers { links }
    }
}

impl<'a> Iterator for Peers<'a> {
    ghost use Rattle.std.specs.Iterator.{YieldsFirst, item_count};

    type Item = Peer;

    ghost next_gives = { YieldsFirst (λ peers. peers) };

    ghost remaining = { item_count (λ peers. peers) };

    fn next(&mut self) -> Option<Peer> {
        let ((peer, _), rest) = self.links.split_first()?;
        self.links = rest;
        Some(*peer)
    }
}
