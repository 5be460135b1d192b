//! What waits for a client.

ghost use Rattle.std.specs.Prelude.{◌≡◌, ◌+◌, ◌<◌, ◌≤◌, ◌++◌, [], drop, length, OnOk, OnErr, IfErr};
ghost use Rattle.babel_control.specs.Limits.{output_room};

use std::alloc::Global;
use std::marker::Model;
use thiserror::Error;

/// The most octets that wait for a client.
pub const MAX_OUTPUT: usize = 1 << 20;

/// There is no room for more, or an allocation failed.
#[derive(Clone, Copy, Debug, Error)]
pub enum OutputFull {
    /// More than `MAX_OUTPUT` octets would wait.
    #[error("the client doesn't read")]
    Room,
    /// An allocation failed.
    #[error("out of memory")]
    Memory,
}

/// The octets that wait for a client, at most `MAX_OUTPUT`. A clause sees them as a list, the first
/// to be sent first.
#[derive(Drop)]
pub struct Output {
    octets: Vec<u8>,
}

impl Model for Output {
    ghost use Rattle.std.specs.Prelude.{List, ℕ, ◌≤◌, length};
    ghost use Rattle.babel_control.specs.Limits.{output_room};

    ghost Value = { List ℕ };

    ghost view = { λ o. o.octets.items };

    ghost invariant = { λ o. length o.octets.items ≤ output_room };
}

impl Output {
    /// Nothing waits.
    pub fn new(alloc: Global) -> Output
        ensures { result ≡ [] }
    {
        Output {
            octets: Vec::new(alloc),
        }
    }

    /// Adds a text.
    ///
    /// # Errors
    ///
    /// `Room` if and only if more than `MAX_OUTPUT` octets would wait. `Memory` if there is room,
    /// and an allocation fails. Nothing changes then.
    pub fn push(&mut self, text: &[u8]) -> Result<(), OutputFull>
        ensures ok { OnOk result (self.new ≡ self.old ++ text.now) }
        ensures err { OnErr result (self.new ≡ self.old) }
        ensures full { IfErr result (λ fault. fault ≡ OutputFull.Room → output_room < length self.old + length text.now) }
        ensures room { IfErr result (λ fault. fault ≡ OutputFull.Memory → length self.old + length text.now ≤ output_room) }
    {
        if MAX_OUTPUT - self.octets.len() < text.len() {
            return Err(OutputFull::Room);
        }
        match self.octets.extend_from_slice(text) {
            Ok(()) => Ok(()),
            Err(_) => Err(OutputFull::Memory),
        }
    }

    /// The octets that wait.
    pub fn waiting(&self) -> &[u8]
        ensures { result.now ≡ self.now }
    {
        self.octets.as_slice()
    }

    /// So many octets were sent.
    pub fn remove(&mut self, count: usize)
        ensures { self.new ≡ drop count self.old }
    {
        let len = self.octets.len();
        if count >= len {
            self.octets.clear();
            return;
        }
        self.octets.copy_within(count.., 0);
        self.octets.truncate(len - count);
    }
}
