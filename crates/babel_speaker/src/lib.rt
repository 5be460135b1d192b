//! A speaker of the Babel routing protocol (RFC 8966). The definitions of its state and of its
//! steps are those of `babel_state`.
//!
//! - `speaker`: the calls, over the state and the `hints`, which only speed it up; `inspecting` is
//!   what the calls report.
//! - `input`: datagrams, their messages, and the steps that each message makes.
//! - `ticks`: what is due at a moment, and when the next thing is.
//! - `output`: pending items, the messages that they mean, and the next datagram.
//! - `state`: the whole state; how it is made, saved and restored.
//! - `tables`: what the state consists of.
//! - `limits`: the definitions' numbers are those of the code.
#![tactic(auto)]

mod decoded;
mod hints;
mod input;
mod inspecting;
pub mod laws;
pub mod limits;
mod output;
mod speaker;
mod state;
mod tables;
mod ticks;
mod versions;

pub use babel_state::{
    Config, ConfigFault, Interface, NotAnnounced, Note, RecvFault, RestoreFault, Selected,
    SetCostFault, Target, TooManyPrefixes, Verdict,
};
pub use decoded::Decoded;
pub use inspecting::Neighbour;
pub use speaker::Speaker;
