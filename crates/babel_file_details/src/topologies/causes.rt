//! Which of the causes of T9, T14 and T18 it is.

use crate::sentences::{Sentence, Word};
use babel_text::{parse_prefix, parse_router_id, parse_u16};
use babel_topology::TopologyFault;
use toml::{Table, Value};

/// Whether the sentence is followed by what to do about the fault.
#[derive(Clone, Copy)]
pub(crate) enum Advice {
    /// By that of the code.
    OfCode,
    /// By nothing: it is in the sentence.
    InSentence,
}

/// The cause of a fault that has several.
#[derive(Clone, Copy)]
pub(crate) struct KnownCause<'t> {
    pub(crate) sentence: Sentence<'t>,
    pub(crate) advice: Advice,
}

impl<'t> KnownCause<'t> {
    fn new(text: &'static str, words: [Word<'t>; 3], advice: Advice) -> KnownCause<'t> {
        KnownCause {
            sentence: Sentence { text, words },
            advice,
        }
    }
}

/// The cause of T9, T14 or T18, if it is found.
pub(crate) fn cause_of(file: &Table, fault: TopologyFault) -> Option<KnownCause<'_>> {
    match fault {
        TopologyFault::BadRouterId(number) => router_id_cause(file, number),
        TopologyFault::BadStep(number) => {
            let text = file.get("plan")?.get(number)?.as_str()?;
            let kind = ItemKind::Step;
            step_cause(Item { file, kind, number }, text)
        }
        TopologyFault::BadExpectation(number) => {
            let text = file.get("expect")?.get(number)?.as_str()?;
            let kind = ItemKind::Expectation;
            expectation_cause(Item { file, kind, number }, text)
        }
        _ => None,
    }
}

/// Whether the router-id of the node is reserved, or which earlier node has it too.
fn router_id_cause(file: &Table, number: usize) -> Option<KnownCause<'_>> {
    let own = router_id_of(file, number)?;
    if own == [0; 8] || own == [0xff; 8] {
        return Some(KnownCause::new(
            "the router-id of node {} is reserved, as are zeros alone and ones alone",
            [Word::Count(number), Word::Empty, Word::Empty],
            Advice::OfCode,
        ));
    }
    for earlier in 0..number {
        if router_id_of(file, earlier) == Some(own) {
            return Some(KnownCause::new(
                "the router-id of node {} is that of node {} too",
                [Word::Count(number), Word::Count(earlier), Word::Empty],
                Advice::OfCode,
            ));
        }
    }
    None
}

/// The router-id of a node: that of the file, or else its number from 1 on.
fn router_id_of(file: &Table, number: usize) -> Option<[u8; 8]> {
    match file.get("node")?.get(number)?.get("router-id") {
        Some(text) => parse_router_id(text.as_str()?),
        None => Some((number as u64).saturating_add(1).to_be_bytes()),
    }
}

/// Of which list of a file an item is.
#[derive(Clone, Copy)]
enum ItemKind {
    Step,
    Expectation,
}

impl ItemKind {
    fn name(self) -> &'static str {
        match self {
            ItemKind::Step => "step",
            ItemKind::Expectation => "expectation",
        }
    }
}

/// A step of the plan of a file, or what the file expects.
#[derive(Clone, Copy)]
struct Item<'t> {
    file: &'t Table,
    kind: ItemKind,
    /// Its number in the list.
    number: usize,
}

impl<'t> Item<'t> {
    /// A cause that names the item and what is wrong of it.
    fn names(self, text: &'static str, wrong: &'t str, advice: Advice) -> KnownCause<'t> {
        let words = [
            Word::Text(self.kind.name()),
            Word::Count(self.number),
            Word::Excerpt(wrong),
        ];
        KnownCause::new(text, words, advice)
    }

    /// The item does not begin with a time.
    fn has_no_time(self, text: &'static str) -> KnownCause<'t> {
        let words = [Word::Count(self.number), Word::Empty, Word::Empty];
        KnownCause::new(text, words, Advice::OfCode)
    }
}

/// The first thing that is wrong with the text of a step.
fn step_cause<'t>(item: Item<'t>, text: &'t str) -> Option<KnownCause<'t>> {
    let Some(action) = after_moment(text) else {
        return Some(item.has_no_time("step {} does not begin with a time, as 'at 20 s'"));
    };
    let (verb, fields) = split_word(action);
    let (subject, amount) = split_word(fields);
    match verb {
        "cut" | "join" => link_cause(item, fields),
        "cost" => link_cause(item, subject).or(cost_cause(item, amount)),
        "lossy" => link_cause(item, subject).or(loss_cause(item, amount)),
        "announce" | "withdraw" => node_cause(item, subject).or(prefix_cause(item, amount)),
        "restart" | "crash" => node_cause(item, fields),
        "" => None,
        _ => Some(item.names("{} {}: nothing is called {}", verb, Advice::OfCode)),
    }
}

/// The first thing that is wrong with the text of what is expected.
fn expectation_cause<'t>(item: Item<'t>, text: &'t str) -> Option<KnownCause<'t>> {
    let Some(fields) = after_time(text) else {
        return Some(item.has_no_time("expectation {} does not begin with a time, as '30 s'"));
    };
    let (node, rest) = split_word(fields);
    let (prefix, way) = split_word(rest);
    node_cause(item, node)
        .or(prefix_cause(item, prefix))
        .or(way_cause(item, way))
}

/// A way is `via NODE`, or `none`.
fn way_cause<'t>(item: Item<'t>, way: &'t str) -> Option<KnownCause<'t>> {
    let (word, next) = split_word(way);
    if word == "via" {
        return node_cause(item, next);
    }
    if way.is_empty() || way == "none" {
        return None;
    }
    Some(item.names(
        "{} {}: {} is neither 'via' and a node nor 'none'",
        way,
        Advice::InSentence,
    ))
}

/// What follows `at TIME`, if the step begins with it.
fn after_moment(text: &str) -> Option<&str> {
    after_time(text.strip_prefix("at ")?)
}

/// What follows TIME, if the text begins with it.
fn after_time(text: &str) -> Option<&str> {
    let (count, after_count) = split_word(text);
    let (unit, action) = split_word(after_count);
    let _ = parse_u16(count)?;
    match unit {
        "ms" | "s" | "min" => Some(action),
        _ => None,
    }
}

/// The text before the first blank and the text after it, which is empty if there is no blank.
fn split_word(text: &str) -> (&str, &str) {
    text.split_once(' ').unwrap_or((text, ""))
}

fn node_cause<'t>(item: Item<'t>, name: &'t str) -> Option<KnownCause<'t>> {
    if name.is_empty() || has_node(item.file, name) {
        return None;
    }
    Some(item.names("{} {}: no node is called {}", name, Advice::InSentence))
}

/// A link is named as `A-B`.
fn link_cause<'t>(item: Item<'t>, link: &'t str) -> Option<KnownCause<'t>> {
    let (a, b) = link.split_once('-')?;
    let cause = node_cause(item, a).or(node_cause(item, b));
    if cause.is_some() || has_link(item.file, a, b) {
        return cause;
    }
    Some(item.names("{} {}: there is no link {}", link, Advice::InSentence))
}

fn cost_cause<'t>(item: Item<'t>, cost: &'t str) -> Option<KnownCause<'t>> {
    if cost.is_empty() || matches!(parse_u16(cost), Some(1..=65534)) {
        return None;
    }
    Some(item.names(
        "{} {}: the cost {} is not a number from 1 to 65534",
        cost,
        Advice::InSentence,
    ))
}

fn loss_cause<'t>(item: Item<'t>, loss: &'t str) -> Option<KnownCause<'t>> {
    let (percent, _sign) = split_word(loss);
    if percent.is_empty() || matches!(parse_u16(percent), Some(0..=100)) {
        return None;
    }
    Some(item.names(
        "{} {}: the loss {} is not a number from 0 to 100, a blank and %",
        loss,
        Advice::InSentence,
    ))
}

fn prefix_cause<'t>(item: Item<'t>, prefix: &'t str) -> Option<KnownCause<'t>> {
    if prefix.is_empty() || parse_prefix(prefix).is_some() {
        return None;
    }
    Some(item.names(
        "{} {}: {} is not a prefix, as 10.0.0.0/8 or 2001:db8::/32",
        prefix,
        Advice::InSentence,
    ))
}

/// The tables of a list of the file.
fn tables_of<'t>(file: &'t Table, list: &str) -> &'t [Value] {
    match file.get(list) {
        Some(Value::Array(items)) => items.as_slice(),
        _ => &[],
    }
}

/// The text at a key of a table.
fn text_at<'t>(table: &'t Value, key: &str) -> Option<&'t str> {
    table.get(key)?.as_str()
}

fn has_node(file: &Table, name: &str) -> bool {
    for node in tables_of(file, "node") {
        if text_at(node, "name") == Some(name) {
            return true;
        }
    }
    false
}

/// Whether there is a link between two nodes.
fn has_link(file: &Table, a: &str, b: &str) -> bool {
    for link in tables_of(file, "link") {
        let ends = (text_at(link, "a"), text_at(link, "b"));
        if ends == (Some(a), Some(b)) || ends == (Some(b), Some(a)) {
            return true;
        }
    }
    false
}
