//! The events of a scenario: those of the network's own nodes, and datagrams that they hear from
//! others.

ghost use Rattle.std.specs.Prelude.{[], codes, IfOk, IfErr};
ghost use Rattle.toml.specs.Data.{get};
ghost use Rattle.toml.specs.View.{view};
ghost use Rattle.babel_text.specs.Readings.{Reads};
ghost use Rattle.babel_toml.specs.Values.{IsText, IsGivenOr, IsList};
ghost use Rattle.babel_toml.specs.Faults.{IsCaused, HasGivenFault, HasListFault};
ghost use Rattle.babel_config.specs.Heard.{IsHearing};
ghost use Rattle.babel_config.specs.ScenarioEvents.{IsScenarioEventText};
ghost use Rattle.babel_config.specs.Scenarios.{HasEventFault};

use crate::events::{parse_event, split_word};
use crate::heard::{HeardDatagram, parse_heard};
use babel_machine::Event;
use babel_text::split_event_word;
use babel_toml::FileFault;
use std::alloc::{AllocError, Global};
use toml::Value;

/// The word of a datagram that a node hears.
const HEAR: &[u8] = b"hear";

/// One event of a scenario.
#[derive(Debug, Drop)]
pub enum ScenarioEvent {
    /// An event of the network's own nodes.
    Ours(Event),
    /// A node hears a datagram of a router that is no node of the network.
    Heard(HeardDatagram),
}

/// The datagram that the text spells, which begins with the word `hear`.
fn parse_hearing(alloc: Global, text: &str) -> Result<Option<ScenarioEvent>, AllocError>
    requires { IsHearing text.now }
    ensures { IfOk result (Reads IsScenarioEventText text.now) }
{
    let Some((_word, fields)) = split_word(text) else {
        return Ok(None);
    };
    match parse_heard(alloc, fields)? {
        Some(heard) => Ok(Some(ScenarioEvent::Heard(heard))),
        None => Ok(None),
    }
}

/// The event that the text spells.
fn parse_scenario_event(alloc: Global, text: &str) -> Result<Option<ScenarioEvent>, AllocError>
    ensures { IfOk result (Reads IsScenarioEventText text.now) }
{
    let Some((word, fields)) = split_event_word(text.as_bytes()) else {
        return Ok(None);
    };
    if word == HEAR {
        return parse_hearing(alloc, text);
    }
    match parse_event(text, word, fields) {
        Some(event) => Ok(Some(ScenarioEvent::Ours(event))),
        None => Ok(None),
    }
}

/// Reads the events of a scenario's table: none if it lacks the key.
pub(crate) fn given_events(alloc: Global, table: &Value) -> Result<Vec<ScenarioEvent>, FileFault>
    ensures ok { IfOk result (λ events. IsGivenOr (IsList (IsText IsScenarioEventText)) [] (get (codes "events") (view table.now)) events.items) }
    ensures refused { IfErr result (IsCaused (HasGivenFault (HasListFault (IsText IsScenarioEventText) HasEventFault) (get (codes "events") (view table.now)))) }
{
    match table.get("events") {
        Some(value) => read_events(alloc, value),
        None => Ok(Vec::new(alloc)),
    }
}

/// Reads a list of the texts of events.
fn read_events(alloc: Global, value: &Value) -> Result<Vec<ScenarioEvent>, FileFault>
    ensures ok { IfOk result (λ events. IsList (IsText IsScenarioEventText) (view value.now) events.items) }
    ensures refused { IfErr result (IsCaused (HasListFault (IsText IsScenarioEventText) HasEventFault (view value.now))) }
{
    let Some(items) = value.as_array() else {
        return Err(FileFault::Form);
    };
    let mut events = Vec::new(alloc);
    for number in 0..items.len() {
        let event = read_event(alloc, number, &items[number])?;
        events.push(event)?;
    }
    Ok(events)
}

/// Reads the text of the event of this number.
fn read_event(alloc: Global, number: usize, value: &Value) -> Result<ScenarioEvent, FileFault>
    ensures ok { IfOk result (IsText IsScenarioEventText (view value.now)) }
    ensures refused { IfErr result (IsCaused (HasEventFault number (view value.now))) }
{
    let text = value.as_str().ok_or(FileFault::Form)?;
    match parse_scenario_event(alloc, text)? {
        Some(event) => Ok(event),
        None => Err(FileFault::Event(number)),
    }
}
