//! The control socket, which doesn't wait, and its clients: a Unix socket, or one of TCP at ::1.
//!
//! `listening` makes the socket, `streams` has that of a client, `connections` is one client with
//! it, and `serving` serves all of them once a turn. What a client asks, and the reply to it, is in
//! the other modules of this crate.

mod connections;
mod listening;
mod serving;
mod streams;

pub use listening::{bind_path, local_address};
pub use serving::{ControlSocket, MAX_CLIENTS};
