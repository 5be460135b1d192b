//! What a speaker is driven over: a clock, and datagrams that come and go.

ghost use Rattle.std.specs.Prelude.{◌≡◌, ◌+◌, ◌<◌, ◌^◌, ℕ, List, [], ◌∷◌, Option, None};
ghost use Rattle.babel_wire.specs.Calls.{Call, call_of_recv, call_of_now, call_of_send, Grows, failures, IsWithin};

use crate::WireFault;
use babel_state::Target;
use babel_value::Addr;

/// A datagram that came. Its octets are at the start of the buffer that was passed to
/// [`Wire::recv`].
#[derive(Clone, Copy, Debug, PartialEq, Eq)]
pub struct Arrival {
    /// The number of the interface over which it came.
    pub iface: u8,
    /// The address from which it came.
    pub source: Addr,
    /// How many octets it has.
    pub len: usize,
}

/// A clock, and datagrams that come and go.
pub trait Wire {
    /// The calls of `recv`, `now` and `send` so far, with what they returned, if the wire knows
    /// them. Of a real network nothing is known.
    ghost history: { Self → Option (List Call) } = { λ _. None };

    /// How many calls failed.
    ghost fault_count: { Self → ℕ };

    /// The moment, in centiseconds.
    fn now(&mut self) -> u64
        ensures history { Grows (history self.old) (call_of_now result ∷ []) (history self.new) }
        ensures faults { fault_count self.new ≡ fault_count self.old };

    /// The next datagram that came, if there is one. Its octets are written to the start of `buf`.
    ///
    /// # Errors
    ///
    /// Receiving failed.
    fn recv(&mut self, buf: &mut [u8]) -> Result<Option<Arrival>, WireFault>
        requires { fault_count self.old + 1 < 2 ^ 64 }
        ensures within { IsWithin result buf.new }
        ensures history { Grows (history self.old) (call_of_recv result buf.new ∷ []) (history self.new) }
        ensures faults { fault_count self.new ≡ fault_count self.old + failures result };

    /// Sends a datagram.
    ///
    /// # Errors
    ///
    /// The datagram, or a copy of it, could not be sent.
    fn send(&mut self, target: &Target, octets: &[u8]) -> Result<(), WireFault>
        requires { fault_count self.old + 1 < 2 ^ 64 }
        ensures history { Grows (history self.old) (call_of_send target.now octets.now result ∷ []) (history self.new) }
        ensures faults { fault_count self.new ≡ fault_count self.old + failures result };

    /// How many calls of `recv` and `send` failed.
    fn faults(&self) -> u64
        ensures { result ≡ fault_count self.now };
}
