//! The interfaces of the nodes. A cost belongs to an interface, of which a node has at most 8.

ghost use Rattle.std.specs.Prelude.{◌≡◌, ◌==◌, ◌≤◌, Some, IfOk, IfSome, position, slice_get, vec_len};
ghost use Rattle.babel_topology.specs.Files.{Keeps};

use crate::MAX_INTERFACES;
use std::alloc::AllocError;

/// Whether the links of a node share interfaces.
#[derive(Clone, Copy)]
pub(crate) enum Sharing {
    /// Each link has an interface of its own.
    Own,
    /// Links of one cost share an interface.
    ByCost,
}

/// The number of the interface for a link of this cost. The interface is new if no other can be
/// shared. `None` if it would be one too many.
pub(crate) fn attach(
    costs: &mut Vec<u16>,
    cost: u16,
    sharing: Sharing,
) -> Result<Option<usize>, AllocError>
    ensures few { vec_len costs.old ≤ 8 → vec_len costs.new ≤ 8 }
    ensures kept { Keeps costs.old.items costs.new.items }
    ensures cost { IfOk result (λ found. IfSome found (λ iface. slice_get costs.new.items iface ≡ Some cost)) }
{
    if matches!(sharing, Sharing::ByCost) {
        if let Some(iface) = find_cost(costs, cost) {
            return Ok(Some(iface));
        }
    }
    push_cost(costs, cost)
}

/// The number of a new interface of this cost. `None` if it would be one too many.
fn push_cost(costs: &mut Vec<u16>, cost: u16) -> Result<Option<usize>, AllocError>
    ensures few { vec_len costs.old ≤ 8 → vec_len costs.new ≤ 8 }
    ensures kept { Keeps costs.old.items costs.new.items }
    ensures cost { IfOk result (λ found. IfSome found (λ iface. slice_get costs.new.items iface ≡ Some cost)) }
{
    let iface = costs.len();
    if iface >= MAX_INTERFACES {
        return Ok(None);
    }
    costs.push(cost)?;
    Ok(Some(iface))
}

/// The number of the first interface of this cost.
fn find_cost(costs: &[u16], cost: u16) -> Option<usize>
    ensures { result ≡ position (λ other. other == cost) costs.now }
{
    for (iface, other) in costs.iter().enumerate() {
        if *other == cost {
            return Some(iface);
        }
    }
    None
}
