//! The keys of a scenario.

ghost use Rattle.std.specs.Prelude.{IfOk, IfErr};
ghost use Rattle.toml.specs.View.{view};
ghost use Rattle.babel_config.specs.Scenarios.{IsScenario, HasScenarioFault};
ghost use Rattle.babel_toml.specs.Faults.{IsCaused};

use crate::configs::ConfigTable;
use crate::keys::{TableKind, is_table_of};
use crate::lists::given_list;
use crate::scenario_events::{ScenarioEvent, given_events};
use babel_state::Config;
use babel_toml::FileFault;
use std::alloc::Global;
use toml::Value;

/// A network and what happens in it.
#[derive(Debug, Drop)]
pub struct Scenario {
    /// The configurations of the nodes, by their numbers from 0 on.
    pub configs: Vec<Config>,
    /// The events, in order.
    pub events: Vec<ScenarioEvent>,
}

/// Reads the table of a scenario.
pub(crate) fn scenario_from_toml(alloc: Global, value: &Value) -> Result<Scenario, FileFault>
    ensures ok { IfOk result (IsScenario (view value.now)) }
    ensures refused { IfErr result (IsCaused (HasScenarioFault (view value.now))) }
{
    if !is_table_of(TableKind::Scenario, value) {
        return Err(FileFault::Form);
    }
    let events = given_events(alloc, value)?;
    let configs = given_list::<ConfigTable>(alloc, value, "node")?;
    Ok(Scenario { configs, events })
}
