//! Why an event of a scenario can't be read, or is refused.

use crate::findings::Finding;
use crate::locations::Owner;
use crate::nearest::Nearest;
use crate::networks::has_address;
use crate::sentences::{Sentence, Word};
use babel_config::{HeardDatagram, Scenario, ScenarioEvent, read_scenario};
use babel_machine::{Event, StepFault};
use babel_net::HearFault;
use babel_state::Config;
use babel_text::{parse_u16, parse_u64};
use babel_value::Addr;
use std::alloc::Global;
use std::fmt;
use toml::Table;

/// The first word of each event, and its form.
static FORMS: [(&str, &str); 12] = [
    ("tick", "tick N T"),
    ("emit", "emit N T"),
    ("deliver", "deliver K N I T"),
    ("cost", "cost N I C"),
    ("raise", "raise N"),
    ("announce", "announce N P"),
    ("withdraw", "withdraw N P"),
    ("restart", "restart N T"),
    ("request", "request N T"),
    ("lose", "lose N I T"),
    ("group", "group N"),
    ("hear", "hear N I A T HEX"),
];

/// Why the text is no event.
pub(crate) fn event_text_problem<'a>(alloc: Global, text: &'a str) -> Sentence<'a> {
    let (name, _fields) = text.split_once(' ').unwrap_or((text, ""));
    let mut nearest = Nearest::to(name);
    for (word, form) in FORMS.iter() {
        if *word == name {
            return fields_problem(name, form, text);
        }
        nearest.take(alloc, word);
    }
    match nearest.found {
        Some(near) => Sentence {
            text: "unknown event '{}'; did you mean '{}'?",
            words: [Word::Text(name), Word::Text(near), Word::Empty],
        },
        None => Sentence {
            text: "unknown event '{}'; the events are tick, emit, deliver, cost, raise, announce, \
                withdraw, restart, request, lose, group and hear",
            words: [Word::Text(name), Word::Empty, Word::Empty],
        },
    }
}

/// Why the text is no event of this form: the first field that is no number, or that it has
/// another form.
fn fields_problem<'a>(name: &str, form: &'a str, text: &'a str) -> Sentence<'a> {
    for (letter, field) in form.split(' ').zip(text.split(' ')) {
        if let Some(kind) = number_kind(letter) {
            if !field.is_empty() && !kind.reads(field) {
                let words = [Word::Text(letter), Word::Excerpt(field), Word::Text(form)];
                return Sentence {
                    text: kind.sentence(),
                    words,
                };
            }
        }
    }
    let words = [Word::Text(form), Word::Empty, Word::Empty];
    Sentence {
        text: form_sentence(name),
        words,
    }
}

/// A field of an event that is a number.
#[derive(Clone, Copy)]
enum NumberKind {
    /// A node, a datagram or a moment.
    Long,
    /// An interface.
    Interface,
    /// A cost.
    Cost,
}

/// What the field of this letter is, if it is a number.
fn number_kind(letter: &str) -> Option<NumberKind> {
    match letter {
        "K" | "N" | "T" => Some(NumberKind::Long),
        "I" => Some(NumberKind::Interface),
        "C" => Some(NumberKind::Cost),
        _ => None,
    }
}

impl NumberKind {
    /// Whether the field is such a number.
    fn reads(self, field: &str) -> bool {
        match self {
            NumberKind::Long => parse_u64(field).is_some(),
            NumberKind::Interface => matches!(parse_u16(field), Some(0..=255)),
            NumberKind::Cost => parse_u16(field).is_some(),
        }
    }

    /// The sentence about a field that isn't one: its letter, the field and the form.
    fn sentence(self) -> &'static str {
        match self {
            NumberKind::Long => {
                "{} {} is not a number from 0 to 18446744073709551615, without sign or leading \
                zeros; the form is '{}'"
            }
            NumberKind::Interface => {
                "{} {} is not a number from 0 to 255, without sign or leading zeros; the form is \
                '{}'"
            }
            NumberKind::Cost => {
                "{} {} is not a number from 1 to 65534, without sign or leading zeros; the form is \
                '{}'"
            }
        }
    }
}

/// The sentence about an event with this first word that has another form.
fn form_sentence(name: &str) -> &'static str {
    match name {
        "hear" => {
            "it is not of the form '{}'; write one blank between words, numbers without leading \
            zeros, A as 192.168.0.9 or fe80::9, and HEX with two digits for each of at most 65535 \
            octets"
        }
        _ => {
            "it is not of the form '{}'; write one blank between words, and numbers without \
            leading zeros"
        }
    }
}

/// Why an event is refused, by its number.
#[derive(Clone, Copy)]
pub(crate) enum EventFault {
    /// It is an event of the scenario's nodes.
    Ours(usize, StepFault),
    /// It brings a datagram of another router.
    Heard(usize, HearFault),
}

impl fmt::Display for EventFault {
    fn fmt<W: fmt::Write>(&self, f: &mut fmt::Formatter<W>) -> fmt::Result {
        match *self {
            EventFault::Ours(number, fault) => write!(f, "event {number}: {fault}"),
            EventFault::Heard(number, fault) => write!(f, "event {number}: {fault}"),
        }
    }
}

/// The sentence about an event that is refused. `octets` are those of the scenario's file.
pub(crate) fn refused_event(
    alloc: Global,
    octets: &[u8],
    fault: EventFault,
) -> Option<Sentence<'static>> {
    match read_scenario(alloc, octets) {
        Ok(scenario) => event_problem(&scenario, fault),
        Err(_) => None,
    }
}

fn event_problem(scenario: &Scenario, fault: EventFault) -> Option<Sentence<'static>> {
    match fault {
        EventFault::Ours(number, fault) => match scenario.events.get(number)? {
            ScenarioEvent::Ours(event) => step_problem(scenario, event, fault),
            ScenarioEvent::Heard(_) => None,
        },
        EventFault::Heard(number, fault) => match scenario.events.get(number)? {
            ScenarioEvent::Heard(heard) => hear_problem(scenario, heard, fault),
            ScenarioEvent::Ours(_) => None,
        },
    }
}

/// The problem of an event, with its text in the table of the file.
pub(crate) fn found_event<'a>(
    file: &'a Table,
    fault: EventFault,
    problem: Sentence<'a>,
) -> Option<Finding<'a>> {
    let number = match fault {
        EventFault::Ours(number, _) | EventFault::Heard(number, _) => number,
    };
    let text = file.get("events")?.get(number)?.as_str()?;
    Some(Finding {
        at: Owner::FILE.key("events").element(number),
        event: Some((number, text)),
        problem,
    })
}

fn hear_problem(
    scenario: &Scenario,
    heard: &HeardDatagram,
    fault: HearFault,
) -> Option<Sentence<'static>> {
    match fault {
        HearFault::OwnAddress => {
            let node = owner_of(scenario.configs.as_slice(), heard.source)?;
            Some(Sentence {
                text: "{} is an address of node {}; hear is for routers that are no nodes, and \
                    deliver for what a node sent",
                words: [Word::Addr(heard.source), Word::Count(node), Word::Empty],
            })
        }
        HearFault::NoNode => Some(no_node(scenario, heard.node)),
        HearFault::NoInterface => no_interface(scenario, heard.node, heard.iface),
        HearFault::Memory => Some(Sentence::memory()),
    }
}

/// The node that has the address.
fn owner_of(configs: &[Config], addr: Addr) -> Option<usize> {
    for (node, config) in configs.iter().enumerate() {
        for interface in config.interfaces.iter() {
            if has_address(interface, addr) {
                return Some(node);
            }
        }
    }
    None
}

fn step_problem(scenario: &Scenario, event: &Event, fault: StepFault) -> Option<Sentence<'static>> {
    let node = node_of(event);
    let (text, words) = match fault {
        StepFault::NoNode => return Some(no_node(scenario, node)),
        StepFault::NoInterface => return no_interface(scenario, node, iface_of(event)?),
        StepFault::Memory => return Some(Sentence::memory()),
        StepFault::NoDatagram => (
            "no datagram {} was recorded before; each emit that sends records one, from 0 on",
            [Word::Count(datagram_of(event)?), Word::Empty, Word::Empty],
        ),
        StepFault::CostOutOfRange => (
            "cost = {} is not in 1 to 65534",
            [Word::Count(cost_of(event)?), Word::Empty, Word::Empty],
        ),
        StepFault::NotListed => (
            "prefix {} is not in the prefixes of node {}",
            [prefix_of(event)?, Word::Count(node), Word::Empty],
        ),
        StepFault::NotAnnounced => (
            "node {} does not announce {} now",
            [Word::Count(node), prefix_of(event)?, Word::Empty],
        ),
    };
    Some(Sentence { text, words })
}

/// There is no such node.
fn no_node(scenario: &Scenario, node: usize) -> Sentence<'static> {
    Sentence {
        text: "there is no node {}; nodes count from 0, and there are {}",
        words: [
            Word::Count(node),
            Word::Count(scenario.configs.len()),
            Word::Empty,
        ],
    }
}

/// The node has no such interface.
fn no_interface(scenario: &Scenario, node: usize, iface: u8) -> Option<Sentence<'static>> {
    let count = scenario.configs.get(node)?.interfaces.len();
    Some(Sentence {
        text: "node {} has no interface {}; interfaces count from 0, and it has {}",
        words: [
            Word::Count(node),
            Word::Count(usize::from(iface)),
            Word::Count(count),
        ],
    })
}

fn node_of(event: &Event) -> usize {
    match event {
        Event::Tick { node, .. }
        | Event::Emit { node, .. }
        | Event::Deliver { node, .. }
        | Event::SetCost { node, .. }
        | Event::Raise { node }
        | Event::RequestSeqnos { node, .. }
        | Event::LoseLinks { node, .. }
        | Event::GroupItems { node }
        | Event::Announce { node, .. }
        | Event::Withdraw { node, .. }
        | Event::Restart { node, .. } => *node,
    }
}

fn iface_of(event: &Event) -> Option<u8> {
    match event {
        Event::Deliver { iface, .. } | Event::SetCost { iface, .. } => Some(*iface),
        _ => None,
    }
}

fn datagram_of(event: &Event) -> Option<usize> {
    match event {
        Event::Deliver { datagram, .. } => Some(*datagram),
        _ => None,
    }
}

fn cost_of(event: &Event) -> Option<usize> {
    match event {
        Event::SetCost { cost, .. } => Some(usize::from(*cost)),
        _ => None,
    }
}

fn prefix_of(event: &Event) -> Option<Word<'static>> {
    match event {
        Event::Announce { prefix, .. } | Event::Withdraw { prefix, .. } => {
            Some(Word::prefix(prefix))
        }
        _ => None,
    }
}
