//! Datagrams of routers that are no nodes of the network: `hear N I A T HEX`.

ghost use Rattle.std.specs.Prelude.{◌≡◌, ℕ, IfOk, IfSome, IsNone, MatchOption, List, Vec, option_map, Some, None};
ghost use Rattle.babel_value.specs.declared.addresses.Addr.{Addr};
ghost use Rattle.babel_text.specs.Octets.{hex_octets};
ghost use Rattle.babel_text.specs.Readings.{Reads};
ghost use Rattle.babel_config.specs.Heard.{max_datagram_len, HasHeardFields, HasWords, HaveSender};

use crate::events::{parse_usize, split_word};
use babel_text::{parse_u8, parse_u64};
use babel_value::Addr;
use hex::FromHexError;
use std::alloc::{AllocError, Global};

/// The most octets of a datagram.
const MAX_DATAGRAM_LEN: usize = 65_535;

/// A datagram that a node hears from a router that is no node of the network.
#[derive(Debug, Drop)]
pub struct HeardDatagram {
    /// The node that hears it.
    pub node: usize,
    /// The number of the node's interface over which it comes.
    pub iface: u8,
    /// The address that it was sent from.
    pub source: Addr,
    /// The moment, in centiseconds.
    pub now: u64,
    /// The octets.
    pub octets: Vec<u8>,
}

/// The words of the fields.
#[derive(Clone, Copy)]
struct Words<'a> {
    node: &'a str,
    iface: &'a str,
    source: &'a str,
    moment: &'a str,
    hex: &'a str,
}

/// The datagram that the fields after the word `hear` spell, if they spell one.
pub(crate) fn parse_heard(alloc: Global, text: &str) -> Result<Option<HeardDatagram>, AllocError>
    ensures { IfOk result (Reads HasHeardFields text.now) }
{
    let Some(words) = split_words(text) else {
        return Ok(None);
    };
    let Some((node, (iface, (source, now)))) = parse_sender(&words) else {
        return Ok(None);
    };
    match decode(alloc, words.hex)? {
        Some(octets) => Ok(Some(HeardDatagram {
            node,
            iface,
            source,
            now,
            octets,
        })),
        None => Ok(None),
    }
}

/// The five words of the text, if it has four blanks. The last one may have further blanks.
fn split_words(text: &str) -> Option<Words<'_>>
    ensures some { IfSome result (λ w. HasWords text.now (w.node.now, (w.iface.now, (w.source.now, (w.moment.now, w.hex.now))))) }
    ensures none { IsNone result → (words : List ℕ × (List ℕ × (List ℕ × (List ℕ × List ℕ)))) → ¬ (HasWords text.now words) }
{
    let (node, rest) = split_word(text)?;
    let (iface, rest) = split_word(rest)?;
    let (source, rest) = split_word(rest)?;
    let (moment, hex) = split_word(rest)?;
    Some(Words {
        node,
        iface,
        source,
        moment,
        hex,
    })
}

/// What the first four words spell: a node, its interface, an address and a moment.
fn parse_sender(words: &Words<'_>) -> Option<(usize, (u8, (Addr, u64)))>
    ensures { MatchOption result ((sender : ℕ × (ℕ × (Addr × ℕ))) → ¬ (HaveSender words.now.node.now words.now.iface.now words.now.source.now words.now.moment.now sender)) (HaveSender words.now.node.now words.now.iface.now words.now.source.now words.now.moment.now) }
{
    let node = parse_usize(words.node)?;
    let iface = parse_u8(words.iface)?;
    let source = words.source.parse::<Addr>().ok()?;
    let now = parse_u64(words.moment)?;
    Some((node, (iface, (source, now))))
}

/// The octets that the digits spell, in memory of their own. `-` stands for no octets.
fn decode(alloc: Global, digits: &str) -> Result<Option<Vec<u8>>, AllocError>
    ensures { IfOk result (λ octets. hex_octets max_datagram_len digits.now ≡ option_map (λ (v : Vec ℕ Global). v.items) octets) }
{
    if digits == "-" {
        return Ok(Some(Vec::new(alloc)));
    }
    let count = digits.len() / 2;
    if count == 0 || count > MAX_DATAGRAM_LEN {
        return Ok(None);
    }
    match hex::decode(alloc, digits) {
        Ok(octets) => Ok(Some(octets)),
        Err(FromHexError::OutOfMemory) => Err(AllocError),
        Err(_) => Ok(None),
    }
}
