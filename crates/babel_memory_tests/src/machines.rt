//! A machine that is made in one call.

use babel_machine::MachineFault;
use babel_machine::machine::Machine;
use std::alloc::Global;

/// `nodes` nodes, and one source that node 0 owns.
pub(crate) fn one_source(alloc: Global, nodes: usize) -> Result<Machine, MachineFault> {
    let owners = [0].to_vec(alloc)?;
    Machine::new(alloc, nodes, owners)
}
