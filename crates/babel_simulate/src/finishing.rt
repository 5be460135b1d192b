//! What is known of a run in the end.

use crate::errors::SimulationFault;
use crate::simulation::Simulation;
use babel_outcome::{Counts, Outcome};
use std::alloc::AllocError;

impl Simulation<'_> {
    /// What is known of the run: the last phase ends.
    ///
    /// # Errors
    ///
    /// `Memory` if an allocation fails.
    pub fn finish(mut self) -> Result<Outcome, SimulationFault> {
        self.complete()?;
        Ok(self.outcome)
    }

    fn complete(&mut self) -> Result<(), SimulationFault> {
        self.now = self.options.duration;
        self.end_phase()?;
        self.add_routes()?;
        self.add_counts()?;
        self.outcome.ended = self.now;
        self.outcome.datagrams = self.sent.datagrams;
        self.outcome.octets = self.sent.octets;
        Ok(())
    }

    /// Adds the ways as they are now, by node and then by prefix.
    fn add_routes(&mut self) -> Result<(), AllocError> {
        let prefixes = self.outcome.prefixes.len();
        let distances = self.moment.all_distances(self.alloc, prefixes)?;
        for node in 0..self.moment.nodes.len() {
            self.moment
                .add_routes(node, &distances, &mut self.outcome.routes)?;
        }
        Ok(())
    }

    fn add_counts(&mut self) -> Result<(), AllocError> {
        for state in &self.moment.nodes {
            let raises = self.network.raises(state.speaker);
            self.outcome.counts.push(Counts {
                raises: raises.unwrap_or(0),
                ..state.counts
            })?;
        }
        Ok(())
    }
}
