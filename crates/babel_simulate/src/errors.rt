//! Why a run ends early.

use babel_machine::{NetFault, StepFault};
use std::alloc::{AllocError, AllocFailed};
use thiserror::Error;

/// Why a run ends early.
#[derive(Clone, Copy, Debug, Error)]
pub enum SimulationFault {
    /// No network can be made of the topology.
    #[error("no network can be made of the nodes")]
    Net(NetFault),
    /// An event of the run is refused.
    #[error("an event is refused")]
    Step(StepFault),
    /// The run would take more memory than it may.
    #[error("the run would take more memory than it may")]
    Limit,
    /// An allocation failed.
    #[error("out of memory")]
    Memory,
}

impl From<NetFault> for SimulationFault {
    fn from(fault: NetFault) -> SimulationFault {
        SimulationFault::Net(fault)
    }
}

impl From<StepFault> for SimulationFault {
    fn from(fault: StepFault) -> SimulationFault {
        match fault {
            StepFault::Memory => SimulationFault::Memory,
            fault => SimulationFault::Step(fault),
        }
    }
}

impl From<AllocError> for SimulationFault {
    fn from(_error: AllocError) -> SimulationFault {
        SimulationFault::Memory
    }
}

impl<T: Drop> From<AllocFailed<T>> for SimulationFault {
    fn from(_error: AllocFailed<T>) -> SimulationFault {
        SimulationFault::Memory
    }
}
