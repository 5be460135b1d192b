//! Each allocation fails: of the tables, of the machine, of a speaker, and of a network.
//! `tests/refused-memory` lets them fail in turn; it tests what reads datagrams, files and logs by
//! runs of the program. `neighbour_calls` has calls that take no memory.
#![tactic(auto)]

#[cfg(test)]
mod machine_memory;
#[cfg(test)]
mod machines;
#[cfg(test)]
mod mixed_memory;
#[cfg(test)]
mod neighbour_calls;
#[cfg(test)]
mod network_memory;
#[cfg(test)]
mod routers;
#[cfg(test)]
mod speaker_memory;
#[cfg(test)]
mod table_memory;
