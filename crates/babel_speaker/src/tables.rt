//! The tables of a speaker and its pending items: what its state consists of.

pub mod addresses;
pub mod announced;
pub mod first_tables;
pub mod groups;
pub mod interfaces;
pub mod link_costs;
pub mod pending_items;
pub mod prefixes;
pub mod reachable;
pub mod requests;
pub mod scratch;
pub mod targets;
pub mod timers;
pub mod waiting;

pub use announced::Announced;
pub use interfaces::Interfaces;
pub use link_costs::{KnownCost, KnownCosts, LinkChange, LinkCosts};
pub use pending_items::PendingItems;
pub use prefixes::Prefixes;
pub use reachable::{Reachable, SelectedPrefixes};
pub use requests::{RequestTable, SeqnoRequest};
pub use scratch::Scratch;
pub use targets::{is_same_target, to_all, to_peer};
