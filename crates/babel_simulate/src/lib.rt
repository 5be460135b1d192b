//! Simulated networks: a topology with its plan is run as a [`Network`](babel_net::Network), event
//! by event.
//!
//! The engine makes the events: it ticks each node when it is due, takes what the node sends, and
//! delivers it over the links that are there. So each run is one of the runs that the theorem of
//! loop freedom is about. The same seed gives the same run. What is known of a run in the end, and
//! its texts, are in `babel_outcome`.
//!
//! - `options` has what a run may be asked for, and `errors` why it ends early.
//! - `building` makes the speakers of a topology and their configurations.
//! - `agenda` has what happens next, and `chances` what is random.
//! - `links` carry datagrams, `speakers` make the events, and `steps` those of the plan.
//! - `hops` keeps the next hops, `moments` compares them with the shortest ways, which `shortest`
//!   finds, and `phases` measures how long they change.
//! - `simulation` runs, and `finishing` ends it.
//! - `scenarios` writes the events of a run as a scenario, which `babel net` replays.
#![tactic(auto)]

mod agenda;
mod building;
mod chances;
mod errors;
mod finishing;
mod hops;
mod links;
mod moments;
mod options;
mod phases;
mod scenarios;
mod shortest;
mod simulation;
mod speakers;
mod steps;

pub use building::{address_of, configs};
pub use errors::SimulationFault;
pub use options::{KeptEvents, Options};
pub use scenarios::write_scenario;
pub use shortest::{Edge, shortest_ways};
pub use simulation::{Progress, Simulation};
