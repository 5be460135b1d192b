//! What is read of a file.

ghost use Rattle.std.specs.Prelude.{◌≡◌, ◌≤◌, ◌<◌, All, IfOk, codes, length, vec_len};
ghost use Rattle.babel_topology.specs.Plans.{IsInOrder, EndsBy};
ghost use Rattle.babel_topology.specs.Files.{HasDistinctNames, IsBetween, HasDistinctLinks, HasDuration, IsTimeAt, HasItsCost};
ghost use Rattle.babel_topology.specs.Actions.{IsAbout, IsExpectedAmong};
ghost use Rattle.toml.specs.View.{table_view};

use crate::file::links::{choose_interfaces, read_links};
use crate::file::nodes::read_nodes;
use crate::file::plans::{read_expectations, read_steps};
use crate::file::problems::first_problem;
use crate::file::tables::{list_at, seed_at, time_at};
use crate::{Topology, TopologyFault};
use std::alloc::Global;
use toml::Table;

/// The most octets that a file may have.
pub const MAX_FILE_LEN: usize = 1_048_576;

/// Reads the octets of the file of a topology.
///
/// # Errors
///
/// T5 if there are more than 1,048,576 octets, T1 if they are no TOML, T2 and T3 by the first
/// problem in the order of the keys, T4 if an allocation fails. Else T6 to T19, in the order of
/// nodes, links, interfaces, steps and expectations.
pub fn read_topology(alloc: Global, octets: &[u8]) -> Result<Topology, TopologyFault>
    ensures too_long { 1048576 < length octets.now → result ≡ Err TopologyFault.Unreadable }
    ensures duration { IfOk result (λ t. HasDuration octets.now t.duration) }
    ensures some { IfOk result (λ t. 1 ≤ vec_len t.nodes) }
    ensures few { IfOk result (λ t. vec_len t.nodes ≤ 4096) }
    ensures names { IfOk result (λ t. HasDistinctNames t.nodes.items) }
    ensures ends { IfOk result (λ t. All (IsBetween (vec_len t.nodes)) t.links.items) }
    ensures once { IfOk result (λ t. HasDistinctLinks t.links.items) }
    ensures interfaces { IfOk result (λ t. vec_len t.interfaces ≡ vec_len t.nodes) }
    ensures costs { IfOk result (λ t. All (HasItsCost t.interfaces.items) t.links.items) }
    ensures few_interfaces { IfOk result (λ t. All (λ costs. vec_len costs ≤ 8) t.interfaces.items) }
    ensures order { IfOk result (λ t. IsInOrder t.steps.items) }
    ensures steps_end { IfOk result (λ t. EndsBy t.duration t.steps.items) }
    ensures steps { IfOk result (λ t. All (λ s. IsAbout (vec_len t.nodes) (vec_len t.links) s.action) t.steps.items) }
    ensures expectations { IfOk result (λ t. All (IsExpectedAmong (vec_len t.nodes)) t.expectations.items) }
    ensures expectations_end { IfOk result (λ t. All (λ e. e.at ≤ t.duration) t.expectations.items) }
{
    if octets.len() > MAX_FILE_LEN {
        return Err(TopologyFault::Unreadable);
    }
    match toml::table_from_slice(alloc, octets) {
        Ok(table) => topology_of(alloc, &table),
        Err(error) if error.is_memory() => Err(TopologyFault::Memory),
        Err(_) => Err(TopologyFault::NotToml),
    }
}

fn topology_of(alloc: Global, file: &Table) -> Result<Topology, TopologyFault>
    ensures duration { IfOk result (λ t. IsTimeAt (codes "duration") (table_view file.now) t.duration) }
    ensures some { IfOk result (λ t. 1 ≤ vec_len t.nodes) }
    ensures few { IfOk result (λ t. vec_len t.nodes ≤ 4096) }
    ensures names { IfOk result (λ t. HasDistinctNames t.nodes.items) }
    ensures ends { IfOk result (λ t. All (IsBetween (vec_len t.nodes)) t.links.items) }
    ensures once { IfOk result (λ t. HasDistinctLinks t.links.items) }
    ensures interfaces { IfOk result (λ t. vec_len t.interfaces ≡ vec_len t.nodes) }
    ensures costs { IfOk result (λ t. All (HasItsCost t.interfaces.items) t.links.items) }
    ensures few_interfaces { IfOk result (λ t. All (λ costs. vec_len costs ≤ 8) t.interfaces.items) }
    ensures order { IfOk result (λ t. IsInOrder t.steps.items) }
    ensures steps_end { IfOk result (λ t. EndsBy t.duration t.steps.items) }
    ensures steps { IfOk result (λ t. All (λ s. IsAbout (vec_len t.nodes) (vec_len t.links) s.action) t.steps.items) }
    ensures expectations { IfOk result (λ t. All (IsExpectedAmong (vec_len t.nodes)) t.expectations.items) }
    ensures expectations_end { IfOk result (λ t. All (λ e. e.at ≤ t.duration) t.expectations.items) }
{
    if let Some(problem) = first_problem(file) {
        return Err(problem.fault());
    }
    let nodes = read_nodes(alloc, list_at(file, "node"))?;
    let mut links = read_links(alloc, &nodes, list_at(file, "link"))?;
    let interfaces = choose_interfaces(alloc, nodes.len(), &mut links)?;
    let Some(duration) = time_at(file, "duration") else {
        return Err(TopologyFault::Form);
    };
    let steps = read_steps(alloc, &nodes, &links, list_at(file, "plan"), duration)?;
    let expectations = read_expectations(alloc, &nodes, list_at(file, "expect"), duration)?;
    Ok(Topology {
        nodes,
        interfaces,
        links,
        steps,
        expectations,
        duration,
        seed: seed_at(file, "seed").unwrap_or(0),
    })
}
