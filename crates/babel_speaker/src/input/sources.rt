//! Why a datagram isn't read at all.

ghost use Rattle.std.specs.Prelude.{◌≡◌};
ghost use Rattle.babel_state.specs.Addresses.{is_from_link, source_fault};

use crate::state::Core;
use crate::tables::addresses::is_from_link;
use babel_state::RecvFault;
use babel_value::Addr;

impl Core {
    /// Why a datagram from this address over this interface isn't read at all, if it isn't.
    #[tactic(auto, unfolding(babel_state::specs::Addresses::source_fault))]
    pub fn source_fault(&self, iface: u8, source: &Addr) -> Option<RecvFault>
        ensures { result ≡ source_fault iface source.now self.now }
    {
        let Some(interface) = self.interface(iface) else {
            return Some(RecvFault::NoInterface);
        };
        if !is_from_link(source, &interface) {
            return Some(RecvFault::ForeignSource);
        }
        if self.interfaces.have_address(source) {
            return Some(RecvFault::OwnSource);
        }
        None
    }
}
