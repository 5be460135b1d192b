//! What is read of a value, and of the value at a key of a table.

ghost use Rattle.std.specs.Prelude.{IfOk, IfErr};
ghost use Rattle.toml.specs.Data.{Data, get};
ghost use Rattle.toml.specs.View.{view};
ghost use Rattle.babel_toml.specs.Values.{IsGivenOr, IsOptional, IsRequired};
ghost use Rattle.babel_toml.specs.Faults.{IsCaused, HasGivenFault, HasRequiredFault};

use crate::FileFault;
use std::alloc::Global;
use toml::Value;

/// A kind of TOML value: what a value of this kind is read as, and why another one is refused.
pub trait Kind {
    ghost use Rattle.babel_toml.specs.declared.errors.FileFault.{FileFault};

    /// What a value of this kind is read as.
    type Output: Drop;

    // What the value means.
    ghost means: { Data → Self.Output → Type 0 };

    // Why the value means nothing.
    ghost fault: { Data → FileFault → Type 0 };

    /// Reads the value.
    fn read(alloc: Global, value: &Value) -> Result<Self::Output, FileFault>
        ensures ok { IfOk result (means (view value.now)) }
        ensures refused { IfErr result (IsCaused (fault (view value.now))) };
}

/// Reads the value at a key of a table, if the table has the key.
pub fn optional<K: Kind>(
    alloc: Global,
    table: &Value,
    key: &str,
) -> Result<Option<K::Output>, FileFault>
    ensures ok { IfOk result (IsOptional K.means (get key.now (view table.now))) }
    ensures refused { IfErr result (IsCaused (HasGivenFault K.fault (get key.now (view table.now)))) }
{
    match table.get(key) {
        Some(value) => Ok(Some(K::read(alloc, value)?)),
        None => Ok(None),
    }
}

/// Reads the value at a key of a table; if the table lacks the key, it is the default.
pub fn given_or<K: Kind>(
    alloc: Global,
    table: &Value,
    key: &str,
    default: K::Output,
) -> Result<K::Output, FileFault>
    ensures ok { IfOk result (IsGivenOr K.means default (get key.now (view table.now))) }
    ensures refused { IfErr result (IsCaused (HasGivenFault K.fault (get key.now (view table.now)))) }
{
    let Some(value) = table.get(key) else {
        return Ok(default);
    };
    K::read(alloc, value)
}

/// Reads the value at a key of a table, which must have the key.
pub fn required<K: Kind>(alloc: Global, table: &Value, key: &str) -> Result<K::Output, FileFault>
    ensures ok { IfOk result (IsRequired K.means (get key.now (view table.now))) }
    ensures refused { IfErr result (IsCaused (HasRequiredFault K.fault (get key.now (view table.now)))) }
{
    match table.get(key) {
        Some(value) => K::read(alloc, value),
        None => Err(FileFault::Form),
    }
}
