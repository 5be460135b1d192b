//! The first fault of a file's keys and values, in the order in which they are read.

use crate::events::event_text_problem;
use crate::explaining::FileKind;
use crate::findings::Finding;
use crate::locations::{Location, Owner};
use crate::nearest::Nearest;
use crate::rules::{Form, Rule, TableKind, ValueKind};
use crate::sentences::Word;
use babel_router_file::DEVICE;
use babel_text::{parse_network, parse_prefix, parse_router_id};
use babel_value::Addr;
use std::alloc::Global;
use toml::{Table, Value};

/// Looks for the first fault.
#[derive(Clone, Copy)]
pub(crate) struct Schema {
    /// The event whose text can't be read, if that is the fault.
    pub(crate) bad_event: Option<usize>,
    pub(crate) alloc: Global,
}

impl Schema {
    /// The first fault of the table of a file.
    pub(crate) fn file_problem<'a>(self, kind: FileKind, file: &'a Value) -> Option<Finding<'a>> {
        match kind {
            FileKind::Config => self.config_problem(Owner::FILE, file),
            FileKind::Scenario => self.scenario_problem(file),
        }
    }

    fn scenario_problem<'a>(self, file: &'a Value) -> Option<Finding<'a>> {
        let found = self.table_problem(TableKind::Scenario, Owner::FILE, file);
        if found.is_some() {
            return found;
        }
        let list = file.get("node")?;
        let Value::Array(nodes) = list else {
            return Some(not_tables(Owner::FILE, "node", list));
        };
        for (node, value) in nodes.iter().enumerate() {
            let found = self.config_problem(Owner::of_node(node), value);
            if found.is_some() {
                return found;
            }
        }
        None
    }

    fn config_problem<'a>(self, owner: Owner, value: &'a Value) -> Option<Finding<'a>> {
        let found = self.table_problem(TableKind::Config, owner, value);
        if found.is_some() {
            return found;
        }
        let list = value.get("interface")?;
        let Value::Array(interfaces) = list else {
            return Some(not_tables(owner, "interface", list));
        };
        for (iface, value) in interfaces.iter().enumerate() {
            let found = self.table_problem(TableKind::Interface, owner.interface(iface), value);
            if found.is_some() {
                return found;
            }
        }
        None
    }

    /// The first fault of a table, but for those of the tables in it.
    fn table_problem<'a>(
        self,
        kind: TableKind,
        owner: Owner,
        value: &'a Value,
    ) -> Option<Finding<'a>> {
        let Value::Table(table) = value else {
            let words = [Word::Owner(owner), Word::Text(kind.list()), Word::Empty];
            let text = "{} is not a table; write [[{}]] above its keys";
            return Some(Finding::new(owner.table(), text, words));
        };
        for (key, _value) in table.iter() {
            let key = key.as_str();
            if !has_key(kind, key) {
                return Some(self.unknown_key(kind, owner, key));
            }
        }
        for rule in kind.rules() {
            let found = self.rule_problem(*rule, owner, table);
            if found.is_some() {
                return found;
            }
        }
        None
    }

    /// A key that the table may not have.
    fn unknown_key<'a>(self, kind: TableKind, owner: Owner, key: &'a str) -> Finding<'a> {
        let mut nearest = Nearest::to(key);
        for rule in kind.rules() {
            nearest.take(self.alloc, rule.key);
        }
        let (text, word) = match nearest.found {
            Some(near) => (
                "unknown key '{}' in {}; did you mean '{}'?",
                Word::Text(near),
            ),
            None if is_of_router(kind, owner, key) => (
                "unknown key '{}' in {}; the keys are {}; \
                 this looks like a file for babel run --config",
                Word::Keys(kind),
            ),
            None => ("unknown key '{}' in {}; the keys are {}", Word::Keys(kind)),
        };
        let words = [Word::Text(key), Word::Owner(owner), word];
        Finding::new(Location::of_name(owner, key), text, words)
    }

    /// What is wrong with the value at a key.
    fn rule_problem<'a>(self, rule: Rule, owner: Owner, table: &'a Table) -> Option<Finding<'a>> {
        let at = owner.key(rule.key);
        match (table.get(rule.key), rule.form) {
            (Some(value), Form::Required(kind)) | (Some(value), Form::Optional(kind)) => {
                self.value_problem(at, rule.key, kind, value)
            }
            (Some(Value::Array(items)), Form::List(kind, noun)) => {
                self.list_problem(at, noun, kind, items.as_slice())
            }
            (Some(value), Form::List(_, _)) => Some(not_a_list(at, rule.key, value)),
            (None, Form::Required(kind)) => Some(missing_key(owner, rule.key, kind)),
            _ => None,
        }
    }

    /// What is wrong with an element of the list at a key.
    fn list_problem<'a>(
        self,
        at: Location<'a>,
        noun: &'static str,
        kind: ValueKind,
        items: &'a [Value],
    ) -> Option<Finding<'a>> {
        for (index, item) in items.iter().enumerate() {
            let found = self.value_problem(at.element(index), noun, kind, item);
            if found.is_some() {
                return found;
            }
        }
        None
    }

    /// What is wrong with a value that is no list and no table.
    fn value_problem<'a>(
        self,
        at: Location<'a>,
        noun: &'static str,
        kind: ValueKind,
        value: &'a Value,
    ) -> Option<Finding<'a>> {
        let (text, word) = match (value, kind) {
            (Value::String(text), ValueKind::Event) => {
                return self.event_problem(at, text.as_str());
            }
            (Value::String(text), _) if kind.is_text() => {
                if is_readable(kind, text.as_str()) {
                    return None;
                }
                ("{} {} is not {}", Word::Excerpt(text.as_str()))
            }
            (Value::Integer(number), ValueKind::Number(least, greatest)) => {
                if u16::try_from(*number).is_ok() {
                    return None;
                }
                return Some(Finding::out_of_range(at, noun, *number, (least, greatest)));
            }
            (Value::Boolean(_), ValueKind::TruthValue) => return None,
            (other, _) => (wrong_kind(kind, other), Word::Text(kind_of(other))),
        };
        Some(Finding::new(at, text, [Word::Text(noun), word, Word::Kind(kind)]))
    }

    /// What is wrong with the text of an event. Which one can't be read is known.
    fn event_problem<'a>(self, at: Location<'a>, text: &'a str) -> Option<Finding<'a>> {
        let number = at.index?;
        if self.bad_event != Some(number) {
            return None;
        }
        Some(Finding {
            at,
            event: Some((number, text)),
            problem: event_text_problem(self.alloc, text),
        })
    }
}

/// Whether a table of this kind may have the key.
fn has_key(kind: TableKind, key: &str) -> bool {
    for rule in kind.rules() {
        if rule.key == key {
            return true;
        }
    }
    false
}

/// Whether a configuration has the key of a file for `run --config`.
fn is_of_router(kind: TableKind, owner: Owner, key: &str) -> bool {
    matches!(kind, TableKind::Config) && owner == Owner::FILE && key == DEVICE
}

/// The value at a key isn't a list.
fn not_a_list<'a>(at: Location<'a>, key: &'a str, value: &Value) -> Finding<'a> {
    let text = "'{}' is {}, and must be a list, as {} = [..]";
    let words = [Word::Text(key), Word::Text(kind_of(value)), Word::Text(key)];
    Finding::new(at, text, words)
}

/// The value at a key isn't a list of tables.
fn not_tables<'a>(owner: Owner, key: &'a str, value: &Value) -> Finding<'a> {
    let text = "'{}' is {}, and must be a list of tables; write [[{}]] above the keys of each";
    let words = [Word::Text(key), Word::Text(kind_of(value)), Word::Text(key)];
    Finding::new(owner.key(key), text, words)
}

fn missing_key<'a>(owner: Owner, key: &'a str, kind: ValueKind) -> Finding<'a> {
    let text = match kind {
        ValueKind::Transport => {
            "{} has no key '{}'; write transport = \"ipv4\" or transport = \"ipv6\""
        }
        _ => "{} has no key '{}'; write router-id = \"..\" with 16 hexadecimal digits",
    };
    let words = [Word::Owner(owner), Word::Text(key), Word::Empty];
    Finding::new(owner.table(), text, words)
}

/// The sentence about a value of another kind than it must be.
fn wrong_kind(kind: ValueKind, value: &Value) -> &'static str {
    match value {
        Value::String(_) => "{} is {}, and must be {}; write it without quotation marks",
        Value::Integer(_) if kind.is_text() => {
            "{} is {}, and must be {}; write it in quotation marks"
        }
        _ => "{} is {}, and must be {}",
    }
}

/// Whether the text of a value of this kind can be read.
fn is_readable(kind: ValueKind, text: &str) -> bool {
    match kind {
        ValueKind::RouterId => parse_router_id(text).is_some(),
        ValueKind::Transport => matches!(text, "ipv4" | "ipv6"),
        ValueKind::Ipv4Network => matches!(parse_network(text), Some((Addr::V4(_), _))),
        ValueKind::Ipv6Address => matches!(text.parse::<Addr>(), Ok(Addr::V6(_))),
        ValueKind::Address => text.parse::<Addr>().is_ok(),
        ValueKind::Prefix => parse_prefix(text).is_some(),
        ValueKind::Event | ValueKind::Number(_, _) | ValueKind::TruthValue => true,
    }
}

/// What a value is.
fn kind_of(value: &Value) -> &'static str {
    match value {
        Value::String(_) => "a text",
        Value::Integer(_) => "a number",
        Value::Float(_) => "a number with a fraction",
        Value::Boolean(_) => "a truth value",
        Value::Datetime(_) => "a date",
        Value::Array(_) => "a list",
        Value::Table(_) => "a table",
    }
}
