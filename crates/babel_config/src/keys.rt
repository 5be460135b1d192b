//! The keys of each kind of table.

ghost use Rattle.std.specs.Prelude.{◌≡◌};
ghost use Rattle.toml.specs.View.{view, table_view};
ghost use Rattle.babel_config.specs.Keys.{is_key_of, all_keys_of, is_table_of};
ghost use Rattle.babel_config.specs.declared.keys.TableKind.TheVariants.{Scenario, Config, Interface};

use toml::{Table, Value};

/// A kind of table in a file.
#[derive(Clone, Copy)]
pub(crate) enum TableKind {
    /// The file of a scenario.
    Scenario,
    /// The file of a configuration, or a node of a scenario.
    Config,
    /// An interface of a configuration.
    Interface,
}

impl TableKind {
    /// Whether a table of this kind may have the key.
    fn has_key(self, key: &str) -> bool
        ensures { result ≡ is_key_of self key.now }
    {
        match self {
            TableKind::Scenario => is_scenario_key(key),
            TableKind::Config => is_config_key(key),
            TableKind::Interface => is_interface_key(key),
        }
    }
}

/// Whether it is a key of a scenario.
fn is_scenario_key(key: &str) -> bool
    ensures { result ≡ is_key_of Scenario key.now }
{
    matches!(key, "events" | "node")
}

/// Whether it is a key of a configuration.
fn is_config_key(key: &str) -> bool
    ensures { result ≡ is_key_of Config key.now }
{
    matches!(
        key,
        "router-id" | "seqno" | "collect" | "prefixes" | "interface"
    )
}

/// Whether it is a key of an interface.
fn is_interface_key(key: &str) -> bool
    ensures { result ≡ is_key_of Interface key.now }
{
    matches!(
        key,
        "transport" | "ipv4" | "ipv6" | "peers" | "cost" | "hello"
    )
}

/// Whether the value is a table of this kind, without other keys.
pub(crate) fn is_table_of(kind: TableKind, value: &Value) -> bool
    ensures { result ≡ is_table_of kind (view value.now) }
{
    match value {
        Value::Table(table) => has_known_keys(kind, table),
        _ => false,
    }
}

/// Whether the table has no other keys than those of its kind.
fn has_known_keys(kind: TableKind, table: &Table) -> bool
    ensures { result ≡ all_keys_of kind (table_view table.now) }
{
    for (key, _value) in table.iter() {
        if !kind.has_key(key.as_str()) {
            return false;
        }
    }
    true
}
