//! What is at a key of a table.

ghost use Rattle.std.specs.Prelude.{◌≡◌, IfSome};
ghost use Rattle.std.specs.Option.{option_map};
ghost use Rattle.toml.specs.View.{table_view};
ghost use Rattle.babel_topology.specs.Files.{text_of, IsTimeAt};

use crate::{Restarts, parse_time};
use babel_text::parse_router_id;
use toml::{Table, Value};

/// The text at a key.
pub(crate) fn text_at<'t>(table: &'t Table, key: &str) -> Option<&'t str>
    ensures { option_map (λ s. s.now) result ≡ text_of key.now (table_view table.now) }
{
    match table.get(key) {
        Some(value) => value.as_str(),
        None => None,
    }
}

/// The list at a key. A table without the key has none.
pub(crate) fn list_at<'t>(table: &'t Table, key: &str) -> &'t [Value] {
    match table.get(key) {
        Some(Value::Array(items)) => items.as_slice(),
        _ => &[],
    }
}

/// The time at a key, in centiseconds.
pub(crate) fn time_at(table: &Table, key: &str) -> Option<u64>
    ensures { IfSome result (IsTimeAt key.now (table_view table.now)) }
{
    match text_at(table, key) {
        Some(text) => parse_time(text),
        None => None,
    }
}

/// The number at a key, from 0 to 65535.
pub(crate) fn number_at(table: &Table, key: &str) -> Option<u16> {
    match table.get(key) {
        Some(Value::Integer(number)) => u16::try_from(*number).ok(),
        _ => None,
    }
}

/// The number at the key of the seed.
pub(crate) fn seed_at(table: &Table, key: &str) -> Option<u64> {
    match table.get(key) {
        Some(Value::Integer(number)) => u64::try_from(*number).ok(),
        _ => None,
    }
}

/// The router-id at a key.
pub(crate) fn router_id_at(table: &Table, key: &str) -> Option<[u8; 8]> {
    parse_router_id(text_at(table, key)?)
}

/// How a node begins again.
pub(crate) fn restarts_at(table: &Table, key: &str) -> Restarts {
    match text_at(table, key) {
        Some("empty") => Restarts::Empty,
        _ => Restarts::Saved,
    }
}
