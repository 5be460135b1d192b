//! The plan of a file, and what is expected.

ghost use Rattle.std.specs.Prelude.{◌≤◌, All, IfOk, OnOk, length};
ghost use Rattle.babel_topology.specs.Plans.{IsInOrder, EndsBy};
ghost use Rattle.babel_topology.specs.Actions.{IsAbout, IsExpectedAmong};

use crate::{
    Action, End, Expectation, Link, Node, Step, TopologyFault, parse_expectation, parse_step,
    push_step,
};
use std::alloc::Global;
use toml::Value;

/// Reads the plan: T14 to T17 for the first step that has such a fault.
pub(crate) fn read_steps(
    alloc: Global,
    nodes: &[Node],
    links: &[Link],
    texts: &[Value],
    duration: u64,
) -> Result<Vec<Step>, TopologyFault>
    ensures about { IfOk result (λ steps. All (λ s. IsAbout (length nodes.now) (length links.now) s.action) steps.items) }
    ensures order { IfOk result (λ steps. IsInOrder steps.items) }
    ensures end { IfOk result (λ steps. EndsBy duration steps.items) }
{
    let mut steps = Vec::new(alloc);
    push_steps(nodes, links, texts, duration, &mut steps)?;
    Ok(steps)
}

fn push_steps(
    nodes: &[Node],
    links: &[Link],
    texts: &[Value],
    duration: u64,
    steps: &mut Vec<Step>,
) -> Result<(), TopologyFault>
    ensures about { OnOk result (All (λ s. IsAbout (length nodes.now) (length links.now) s.action) steps.old.items
        → All (λ s. IsAbout (length nodes.now) (length links.now) s.action) steps.new.items) }
    ensures order { OnOk result (IsInOrder steps.old.items → IsInOrder steps.new.items) }
    ensures end { OnOk result (EndsBy duration steps.old.items → EndsBy duration steps.new.items) }
{
    for (number, text) in texts.iter().enumerate() {
        let (at, action) = read_step(nodes, links, number, text)?;
        push_step(steps, Step { at, action }, number, duration)?;
    }
    Ok(())
}

/// The moment of a step, and what happens then.
fn read_step(
    nodes: &[Node],
    links: &[Link],
    number: usize,
    text: &Value,
) -> Result<(u64, Action), TopologyFault>
    ensures about { IfOk result (λ step. IsAbout (length nodes.now) (length links.now) step.1) }
{
    let step = match text.as_str() {
        Some(text) => parse_step(nodes, links, text),
        None => None,
    };
    let Some(step) = step else {
        return Err(TopologyFault::BadStep(number));
    };
    match step.action {
        Action::SetCost { link, .. } if shares_interface(links, link) => {
            Err(TopologyFault::SharedCost(number))
        }
        action => Ok((step.at, action)),
    }
}

/// Whether another link has one of the interfaces of this one.
fn shares_interface(links: &[Link], number: usize) -> bool {
    let Some(link) = links.get(number) else {
        return false;
    };
    end_count(links, link.a) > 1 || end_count(links, link.b) > 1
}

/// How many links end here.
fn end_count(links: &[Link], end: End) -> usize {
    let mut count = 0usize;
    for link in links {
        if link.a == end || link.b == end {
            count = count.saturating_add(1);
        }
    }
    count
}

/// Reads what is expected: T18 or T19 for the first expectation that has such a fault.
pub(crate) fn read_expectations(
    alloc: Global,
    nodes: &[Node],
    texts: &[Value],
    duration: u64,
) -> Result<Vec<Expectation>, TopologyFault>
    ensures among { IfOk result (λ expectations. All (IsExpectedAmong (length nodes.now)) expectations.items) }
    ensures end { IfOk result (λ expectations. All (λ e. e.at ≤ duration) expectations.items) }
{
    let mut expectations = Vec::new(alloc);
    for (number, text) in texts.iter().enumerate() {
        let expectation = read_expectation(nodes, number, text, duration)?;
        expectations.push(expectation)?;
    }
    Ok(expectations)
}

fn read_expectation(
    nodes: &[Node],
    number: usize,
    text: &Value,
    duration: u64,
) -> Result<Expectation, TopologyFault>
    ensures among { IfOk result (IsExpectedAmong (length nodes.now)) }
    ensures end { IfOk result (λ e. e.at ≤ duration) }
{
    let expectation = match text.as_str() {
        Some(text) => parse_expectation(nodes, text),
        None => None,
    };
    match expectation {
        Some(expectation) if expectation.at <= duration => Ok(expectation),
        Some(_) => Err(TopologyFault::LateExpectation(number)),
        None => Err(TopologyFault::BadExpectation(number)),
    }
}
