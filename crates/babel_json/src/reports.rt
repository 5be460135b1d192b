//! The lines of the reports, and the object that each becomes.

use crate::objects::{Object, Value};
use crate::shapes::{
    DONE, ENDED, EVENT_DATAGRAM, EXPLAINED, FOREIGN_HOP, Field, HOP, JUDGED, Kind, Lead, REFUSED,
    REFUSED_EVENT, RESTORED, SELECTED, SENT, SOURCE, Tlv,
};
use crate::words::Words;

/// Whose lines are read: each command has lines of its own.
#[derive(Clone, Copy)]
pub enum Report {
    /// Those of `show`.
    Show,
    /// Those of `check`.
    Check,
    /// Those of `replay`.
    Replay,
    /// Those of `explain`.
    Explain,
    /// Those of `net`.
    Net,
}

/// The datagram that the lines of `show` are of: the line of the input, and the source.
#[derive(Clone, Copy)]
pub(crate) struct Origin<'a> {
    pub(crate) line: Option<u64>,
    pub(crate) source: Option<&'a str>,
}

/// The object that a line becomes. A line of no known form, which no report has, is a text.
pub(crate) fn object_of<'a>(report: Report, origin: Origin<'a>, line: &'a str) -> Object<'a> {
    let mut words = Words::new(line);
    let read = match report {
        Report::Show => shown(&mut words, Head::Origin(origin)),
        Report::Check => Some(checked(&mut words)),
        Report::Replay => replayed(&mut words),
        Report::Explain => Some(explained(&mut words)),
        Report::Net => stepped(&mut words),
    };
    match read {
        Some(object) if words.is_end() => object,
        _ => text_object(line),
    }
}

fn text_object<'a>(line: &'a str) -> Object<'a> {
    let mut object = Object::new("text");
    object.text("text", line);
    object
}

/// The object of a datagram whose lines follow.
pub(crate) fn datagram_object<'a>(origin: Origin<'a>) -> Object<'a> {
    headed("datagram", Head::Origin(origin))
}

/// What the object of a line about a datagram begins with.
#[derive(Clone, Copy)]
enum Head<'a> {
    /// In `show` the datagram.
    Origin(Origin<'a>),
    /// In `replay` the time.
    Time(u64),
}

fn headed<'a>(kind: &'static str, head: Head<'a>) -> Object<'a> {
    let mut object = Object::new(kind);
    match head {
        Head::Origin(origin) => {
            object.number_or_null("line", origin.line);
            object.text_or_null("source", origin.source);
        }
        Head::Time(time) => object.number("time", time),
    }
    object
}

/// A line of `show`, or one of `replay` after its time: what is refused, or a TLV, in `replay` with
/// what became of a message.
fn shown<'a>(words: &mut Words<'a>, head: Head<'a>) -> Option<Object<'a>> {
    if words.skip("refused") {
        return Some(filled(headed("refused", head), words, &REFUSED));
    }
    let offset = words.number();
    let tlv = Tlv::from_name(words.word())?;
    let mut object = headed(tlv.object, head);
    object.number("offset", offset);
    if tlv.is_message {
        object.text("message", tlv.name);
    }
    put_fields(&mut object, words, tlv.fields);
    match head {
        Head::Time(_) if tlv.is_message => put_fields(&mut object, words, &JUDGED),
        _ => {}
    }
    Some(object)
}

/// The object with each field.
fn filled<'a>(object: Object<'a>, words: &mut Words<'a>, fields: &'static [Field]) -> Object<'a> {
    let mut object = object;
    put_fields(&mut object, words, fields);
    object
}

/// Appends each field.
fn put_fields<'a>(object: &mut Object<'a>, words: &mut Words<'a>, fields: &'static [Field]) {
    for Field(key, lead, kind) in fields.iter() {
        let has_value = match *lead {
            Lead::Nothing => true,
            Lead::Word(word) => {
                words.expect(word);
                true
            }
            Lead::Optional(word) => words.skip(word),
        };
        if has_value {
            object.put(key, value_of(words, key, *kind));
        } else {
            object.null(key);
        }
    }
}

fn value_of<'a>(words: &mut Words<'a>, key: &'static str, kind: Kind) -> Value<'a> {
    match kind {
        Kind::Text => Value::Text(words.word()),
        Kind::Number => Value::Number(words.number()),
        Kind::Count => {
            let number = words.number();
            words.expect(key);
            Value::Number(number)
        }
        Kind::OptionalNumber => match words.optional_number() {
            Some(number) => Value::Number(number),
            None => Value::Null,
        },
        Kind::Receiver if words.skip("any") || words.skip("all") => Value::Null,
        Kind::Receiver => Value::Text(words.word()),
    }
}

/// Appends each field, or each key without a value after `none`.
fn put_fields_or_none<'a>(
    object: &mut Object<'a>,
    words: &mut Words<'a>,
    fields: &'static [Field],
) {
    if words.skip("none") {
        put_nulls(object, fields);
    } else {
        put_fields(object, words, fields);
    }
}

fn put_nulls(object: &mut Object<'_>, fields: &'static [Field]) {
    for Field(key, _, _) in fields.iter() {
        object.null(key);
    }
}

/// A line of `check`.
fn checked<'a>(words: &mut Words<'a>) -> Object<'a> {
    words.expect("ok");
    let mut object = Object::new("ok");
    if words.peek().is_some() {
        put_fields(&mut object, words, &RESTORED);
    } else {
        put_nulls(&mut object, &RESTORED);
    }
    object
}

/// A line of `replay`.
fn replayed<'a>(words: &mut Words<'a>) -> Option<Object<'a>> {
    if words.skip("table") {
        return Some(selected(words, Object::new("table")));
    }
    let head = Head::Time(words.number());
    if words.skip("select") {
        return Some(selected(words, headed("select", head)));
    }
    if words.skip("out") {
        return Some(filled(headed("out", head), words, &SENT));
    }
    shown(words, head)
}

/// A prefix and its selected route, after the head.
fn selected<'a>(words: &mut Words<'a>, head: Object<'a>) -> Object<'a> {
    let mut object = head;
    object.text("prefix", words.word());
    put_fields_or_none(&mut object, words, &SELECTED);
    object
}

/// A line of `explain`.
fn explained<'a>(words: &mut Words<'a>) -> Object<'a> {
    let mut object = filled(Object::new("route"), words, &EXPLAINED);
    words.expect("source");
    put_fields_or_none(&mut object, words, &SOURCE);
    object.text("verdict", words.word());
    object
}

/// A line of `net`.
fn stepped<'a>(words: &mut Words<'a>) -> Option<Object<'a>> {
    if words.skip("end") {
        return Some(filled(Object::new("end"), words, &ENDED));
    }
    let event = words.number();
    match words.word() {
        "refused" => Some(filled(of_event("refused", event), words, &REFUSED_EVENT)),
        "hop" => Some(hop(words, event)),
        "did" => Some(did(words, event)),
        _ => None,
    }
}

fn of_event<'a>(kind: &'static str, event: u64) -> Object<'a> {
    let mut object = Object::new(kind);
    object.number("event", event);
    object
}

/// The line of what an event did.
fn did<'a>(words: &mut Words<'a>, event: u64) -> Object<'a> {
    let mut object = filled(of_event("event", event), words, &DONE);
    let _ = words.skip("nothing");
    put_fields(&mut object, words, &EVENT_DATAGRAM);
    object
}

/// The line of a next hop: none, a node's number, or the address of a router that is no node.
fn hop<'a>(words: &mut Words<'a>, event: u64) -> Object<'a> {
    let node = words.number();
    let prefix = words.word();
    words.expect("->");
    let is_ours = words.peek_number().is_some() || words.peek() == Some("none");
    let kind = if is_ours { "hop" } else { "foreign-hop" };
    let mut object = of_event(kind, event);
    object.number("node", node);
    object.text("prefix", prefix);
    if is_ours {
        put_fields_or_none(&mut object, words, &HOP);
    } else {
        put_fields(&mut object, words, &FOREIGN_HOP);
    }
    object
}
