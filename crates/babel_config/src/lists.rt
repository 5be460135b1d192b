//! Lists.

ghost use Rattle.std.specs.Prelude.{[], IfOk, IfErr};
ghost use Rattle.toml.specs.Data.{get};
ghost use Rattle.toml.specs.View.{view};
ghost use Rattle.babel_toml.specs.Values.{IsGivenOr, IsList};
ghost use Rattle.babel_toml.specs.Faults.{IsCaused, HasGivenFault, HasListFault};

use babel_toml::{FileFault, Kind};
use std::alloc::Global;
use toml::Value;

/// Reads a list of values of a kind.
fn read_list<K: Kind>(alloc: Global, value: &Value) -> Result<Vec<K::Output>, FileFault>
    ensures ok { IfOk result (λ list. IsList K.means (view value.now) list.items) }
    ensures refused { IfErr result (IsCaused (HasListFault K.means (λ _. K.fault) (view value.now))) }
{
    let Some(items) = value.as_array() else {
        return Err(FileFault::Form);
    };
    let mut list = Vec::new(alloc);
    for item in items {
        list.push(K::read(alloc, item)?)?;
    }
    Ok(list)
}

/// Reads the list at a key of a table: the empty one if the table lacks the key.
pub(crate) fn given_list<K: Kind>(
    alloc: Global,
    table: &Value,
    key: &str,
) -> Result<Vec<K::Output>, FileFault>
    ensures ok { IfOk result (λ list. IsGivenOr (IsList K.means) [] (get key.now (view table.now)) list.items) }
    ensures refused { IfErr result (IsCaused (HasGivenFault (HasListFault K.means (λ _. K.fault)) (get key.now (view table.now)))) }
{
    match table.get(key) {
        Some(value) => read_list::<K>(alloc, value),
        None => Ok(Vec::new(alloc)),
    }
}
