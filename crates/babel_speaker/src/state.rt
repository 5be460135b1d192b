//! The whole state of a speaker: how it is made, restored and saved, and what is set and reported.

pub mod making;
pub mod restarts;
pub mod restored_sources;
pub mod settings;
pub mod speaker_core;

pub use speaker_core::Core;
