//! The texts of the events of a network's own nodes.

ghost use Rattle.std.specs.Prelude.{◌≡◌, ℕ, IfSome, None, MatchOption};
ghost use Rattle.babel_text.specs.Readings.{Reads};
ghost use Rattle.babel_text.specs.Numbers.{IsNumberText};
ghost use Rattle.babel_text.specs.Prefixes.{IsPrefixText};
ghost use Rattle.babel_config.specs.Events.{IsAfterWord, IsPair, IsLong, IsEventText};
ghost use Rattle.babel_text.specs.Fields.{HasBlank, before_blank, after_blank};

use babel_machine::Event;
use babel_text::{parse_prefix, split_number, split_u8, u16_of, u64_of};
use babel_value::Prefix;

// The words of events.
const TICK: &[u8] = b"tick";

const EMIT: &[u8] = b"emit";

const DELIVER: &[u8] = b"deliver";

const COST: &[u8] = b"cost";

const RAISE: &[u8] = b"raise";

const ANNOUNCE: &[u8] = b"announce";

const WITHDRAW: &[u8] = b"withdraw";

const RESTART: &[u8] = b"restart";

const REQUEST: &[u8] = b"request";

const LOSE: &[u8] = b"lose";

const GROUP: &[u8] = b"group";

/// The number of a node or of a datagram.
pub(crate) fn parse_usize(text: &str) -> Option<usize>
    ensures { Reads (IsNumberText 64) text.now result }
{
    usize_of(text.as_bytes())
}

/// The text before the first blank, and the text after it.
pub(crate) fn split_word(text: &str) -> Option<(&str, &str)>
    ensures parted { IfSome result (λ parts. HasBlank text.now) }
    ensures word { IfSome result (λ parts. parts.0.now ≡ before_blank text.now) }
    ensures rest { IfSome result (λ parts. parts.1.now ≡ after_blank text.now) }
    ensures whole { result ≡ None → ¬ (HasBlank text.now) }
{
    text.split_once(' ')
}

/// The number of a node or of a datagram that these octets of text spell.
fn usize_of(text: &[u8]) -> Option<usize>
    ensures { Reads (IsNumberText 64) text.now result }
{
    let number = u64_of(text)?;
    usize::try_from(number).ok()
}

/// The number of a node or of a datagram before the first blank, and the octets after that.
fn split_usize(text: &[u8]) -> Option<(usize, &[u8])>
    ensures { MatchOption result ((number : ℕ) → HasBlank text.now → ¬ (IsLong (before_blank text.now) number))
        (λ f. HasBlank text.now × IsLong (before_blank text.now) f.0 × (f.1.now ≡ after_blank text.now)) }
{
    let (number, rest) = split_number(text)?;
    let number = usize::try_from(number).ok()?;
    Some((number, rest))
}

/// `N T`: a node and a moment.
fn parse_node_and_moment(text: &[u8]) -> Option<(usize, u64)>
    ensures { Reads (IsPair IsLong IsLong) text.now result }
{
    let (node, now) = split_usize(text)?;
    Some((node, u64_of(now)?))
}

/// `N P`: a node and a prefix.
fn parse_node_and_prefix(text: &str) -> Option<(usize, Prefix)>
    ensures { Reads (IsPair IsLong IsPrefixText) text.now result }
{
    let (node, prefix) = split_word(text)?;
    Some((parse_usize(node)?, parse_prefix(prefix)?))
}

/// `I T`: an interface and a moment.
fn parse_iface_and_moment(text: &[u8]) -> Option<(u8, u64)>
    ensures { Reads (IsPair (IsNumberText 8) IsLong) text.now result }
{
    let (iface, now) = split_u8(text)?;
    Some((iface, u64_of(now)?))
}

/// `I C`: an interface and a cost.
fn parse_iface_and_cost(text: &[u8]) -> Option<(u8, u16)>
    ensures { Reads (IsPair (IsNumberText 8) (IsNumberText 16)) text.now result }
{
    let (iface, cost) = split_u8(text)?;
    Some((iface, u16_of(cost)?))
}

/// `N I T`: a node, an interface and a moment.
fn parse_loss(text: &[u8]) -> Option<(usize, (u8, u64))>
    ensures { Reads (IsPair IsLong (IsPair (IsNumberText 8) IsLong)) text.now result }
{
    let (node, rest) = split_usize(text)?;
    Some((node, parse_iface_and_moment(rest)?))
}

/// `K N I T`: a datagram, a node, an interface and a moment.
fn parse_delivery(text: &[u8]) -> Option<(usize, (usize, (u8, u64)))>
    ensures { Reads (IsPair IsLong (IsPair IsLong (IsPair (IsNumberText 8) IsLong))) text.now result }
{
    let (datagram, rest) = split_usize(text)?;
    let (node, rest) = split_usize(rest)?;
    Some((datagram, (node, parse_iface_and_moment(rest)?)))
}

/// `N I C`: a node, an interface and a cost.
fn parse_cost(text: &[u8]) -> Option<(usize, (u8, u16))>
    ensures { Reads (IsPair IsLong (IsPair (IsNumberText 8) (IsNumberText 16))) text.now result }
{
    let (node, rest) = split_usize(text)?;
    Some((node, parse_iface_and_cost(rest)?))
}

/// The node and the prefix after the event's word. Prefixes are read from text.
fn parse_announcement(text: &str) -> Option<(usize, Prefix)>
    ensures { Reads (IsAfterWord (IsPair IsLong IsPrefixText)) text.now result }
{
    let (_word, fields) = split_word(text)?;
    parse_node_and_prefix(fields)
}

/// The event that the text spells, whose first word is this one, and what follows it are these
/// fields. All but prefixes are read from octets: words are so short that a search for each blank
/// takes longer than a look at each octet.
pub(crate) fn parse_event(text: &str, word: &[u8], fields: &[u8]) -> Option<Event>
    requires blank { HasBlank text.now }
    requires word { word.now ≡ before_blank text.now }
    requires fields { fields.now ≡ after_blank text.now }
    ensures { Reads IsEventText text.now result }
{
    if word == TICK {
        let (node, now) = parse_node_and_moment(fields)?;
        return Some(Event::Tick { node, now });
    }
    if word == EMIT {
        let (node, now) = parse_node_and_moment(fields)?;
        return Some(Event::Emit { node, now });
    }
    if word == DELIVER {
        let (datagram, (node, (iface, now))) = parse_delivery(fields)?;
        return Some(Event::Deliver {
            datagram,
            node,
            iface,
            now,
        });
    }
    if word == COST {
        let (node, (iface, cost)) = parse_cost(fields)?;
        return Some(Event::SetCost { node, iface, cost });
    }
    if word == RAISE {
        let node = usize_of(fields)?;
        return Some(Event::Raise { node });
    }
    if word == ANNOUNCE {
        let (node, prefix) = parse_announcement(text)?;
        return Some(Event::Announce { node, prefix });
    }
    if word == WITHDRAW {
        let (node, prefix) = parse_announcement(text)?;
        return Some(Event::Withdraw { node, prefix });
    }
    if word == RESTART {
        let (node, now) = parse_node_and_moment(fields)?;
        return Some(Event::Restart { node, now });
    }
    if word == REQUEST {
        let (node, now) = parse_node_and_moment(fields)?;
        return Some(Event::RequestSeqnos { node, now });
    }
    if word == LOSE {
        let (node, (iface, now)) = parse_loss(fields)?;
        return Some(Event::LoseLinks { node, iface, now });
    }
    if word == GROUP {
        let node = usize_of(fields)?;
        return Some(Event::GroupItems { node });
    }
    None
}
