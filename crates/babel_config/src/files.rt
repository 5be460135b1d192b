//! Files as octets.

ghost use Rattle.std.specs.Prelude.{◌≡◌, ◌⊎◌, ◌<◌, ◌≤◌, length, IsErr, IfOk, IfErr, IfSome};
ghost use Rattle.toml.specs.View.{view};
ghost use Rattle.babel_config.specs.Configs.{IsConfig, HasConfigFault};
ghost use Rattle.babel_config.specs.Scenarios.{IsScenario, HasScenarioFault};
ghost use Rattle.babel_toml.specs.Faults.{IsCaused};
ghost use Rattle.babel_config.specs.Files.{max_file_len, IsFileOf, HasNoTable, HasFileFault};

use crate::configs::ConfigTable;
use crate::scenarios::{Scenario, scenario_from_toml};
use babel_state::Config;
use babel_toml::{FileFault, Kind};
use std::alloc::Global;
use std::io::Read;
use toml::Value;

/// The most octets that a file may have.
pub const MAX_FILE_LEN: usize = 1_048_576;

/// Reads a configuration from the octets of a TOML file.
pub fn read_config(alloc: Global, octets: &[u8]) -> Result<Config, FileFault>
    ensures ok { IfOk result (λ config. IsFileOf (λ d. IsConfig d config) octets.now) }
    ensures refused { IfErr result (IsCaused (HasFileFault HasConfigFault octets.now)) }
    ensures only { IfErr result (IsCaused (λ _. (config : Config) → ¬ (IsFileOf (λ d. IsConfig d config) octets.now))) }
    ensures too_long { max_file_len < length octets.now → result ≡ Err FileFault.Unreadable }
{
    let file = read_toml(alloc, octets)?;
    ConfigTable::read(alloc, &file)
}

/// Reads a scenario from the octets of a TOML file.
pub fn read_scenario(alloc: Global, octets: &[u8]) -> Result<Scenario, FileFault>
    ensures ok { IfOk result (λ scenario. IsFileOf (λ d. IsScenario d scenario) octets.now) }
    ensures refused { IfErr result (IsCaused (HasFileFault HasScenarioFault octets.now)) }
    ensures only { IfErr result (IsCaused (λ _. (scenario : Scenario) → ¬ (IsFileOf (λ d. IsScenario d scenario) octets.now))) }
    ensures too_long { max_file_len < length octets.now → result ≡ Err FileFault.Unreadable }
{
    let file = read_toml(alloc, octets)?;
    scenario_from_toml(alloc, &file)
}

/// Reads the table of a TOML file.
fn read_toml(alloc: Global, octets: &[u8]) -> Result<Value, FileFault>
    ensures ok { IfOk result (λ file. IsFileOf (λ d. d ≡ view file) octets.now) }
    ensures refused { IfErr result (IsCaused (HasNoTable octets.now)) }
    ensures too_long { max_file_len < length octets.now → result ≡ Err FileFault.Unreadable }
{
    if octets.len() > MAX_FILE_LEN {
        return Err(FileFault::Unreadable);
    }
    match toml::table_from_slice(alloc, octets) {
        Ok(table) => Ok(Value::Table(table)),
        Err(error) if error.is_memory() => Err(FileFault::Memory),
        Err(_) => Err(FileFault::NotToml),
    }
}

/// Reads the octets of a file, of which there may be `MAX_FILE_LEN`.
///
/// # Errors
///
/// F5 if reading fails or the file has more octets, F4 if an allocation fails.
pub fn read_file<R: Read + Drop>(alloc: Global, input: R) -> Result<Vec<u8>, FileFault>
    ensures whole { IfSome (R.remaining input) (λ file. IfOk result (λ octets. octets.items ≡ file)) }
    ensures bounded { IfOk result (λ octets. length octets.items ≤ max_file_len) }
    ensures too_long { IfSome (R.remaining input) (λ file. max_file_len < length file → IsErr result) }
    ensures fault { IfErr result (λ fault. (fault ≡ FileFault.Unreadable) ⊎ (fault ≡ FileFault.Memory)) }
{
    let mut octets = Vec::new(alloc);
    let mut front = input.take(MAX_FILE_LEN as u64 + 1);
    front.read_to_end(&mut octets)?;
    if octets.len() > MAX_FILE_LEN {
        return Err(FileFault::Unreadable);
    }
    Ok(octets)
}
