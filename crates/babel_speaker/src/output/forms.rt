//! The messages that items mean (RFC 8966, sections 3.4, 3.7 and 3.8). Each is written where the
//! caller wants it: one that is returned is copied field by field.

ghost use Rattle.std.specs.Prelude.{◌≡◌, ◌≤◌, ◌*◌, Some};
ghost use Rattle.babel_message.specs.declared.messages.Message.TheVariants as messages;
ghost use Rattle.babel_state.specs.declared.items.Outgoing.TheVariants as outgoings;
ghost use Rattle.babel_state.specs.OutgoingMessages.{to_all, outgoing_hello};
ghost use Rattle.babel_state.specs.Limits.{longest_hello};
ghost use Rattle.babel_speaker.specs.Intervals.{hellos_an_ihu, hellos_an_update};

use crate::output::records::{Advertisement, Egress};
use crate::tables::timers::{IHU_HELLOS, UPDATE_HELLOS};
use crate::tables::to_all;
use babel_message::Message;
use babel_state::{InterfaceEntry, Outgoing};
use babel_value::{Addr, Metric, Peer, Prefix};

/// The next Hello of the interface (RFC 8966, section 3.4.1).
pub fn hello_message(iface: u8, interface: &InterfaceEntry, out: &mut Outgoing)
    ensures { out.new ≡ outgoing_hello iface interface.now }
{
    let message = Message::Hello {
        unicast: false,
        seqno: interface.hello_seqno,
        interval: interface.hello,
    };
    *out = Outgoing::Message(to_all(iface), message);
}

/// How well the neighbour is heard (RFC 8966, section 3.4.2).
pub fn ihu_message(peer: Peer, rxcost: Metric, interface: &InterfaceEntry, out: &mut Outgoing)
    requires { interface.now.hello ≤ longest_hello }
    ensures { out.new ≡ outgoings.Message (to_all peer.iface) (messages.Ihu (Some peer.addr) rxcost (hellos_an_ihu * interface.now.hello)) }
{
    let message = Message::Ihu {
        to: Some(peer.addr),
        rxcost,
        interval: IHU_HELLOS * interface.hello,
    };
    *out = Outgoing::Message(to_all(peer.iface), message);
}

/// An Update of a prefix (RFC 8966, section 3.7).
pub fn update_message(egress: Egress<'_>, route: &Advertisement, next_hop: Addr, out: &mut Outgoing)
    requires { egress.interface.now.hello ≤ longest_hello }
    ensures { out.new ≡ outgoings.Message egress.entry.target (messages.Update route.now.source.prefix route.now.source.router next_hop route.now.distance.seqno route.now.distance.metric (hellos_an_update * egress.entry.interface.now.hello)) }
{
    let message = Message::Update {
        prefix: route.source.prefix,
        router: route.source.router,
        next_hop,
        seqno: route.distance.seqno,
        metric: route.distance.metric,
        interval: UPDATE_HELLOS * egress.interface.hello,
    };
    *out = Outgoing::Message(egress.target, message);
}

/// The retraction of a prefix (RFC 8966, section 3.7).
pub fn retraction_message(egress: Egress<'_>, prefix: Prefix, out: &mut Outgoing)
    requires { egress.interface.now.hello ≤ longest_hello }
    ensures { out.new ≡ outgoings.Message egress.entry.target (messages.Retraction prefix (hellos_an_update * egress.entry.interface.now.hello)) }
{
    let message = Message::Retraction {
        prefix,
        interval: UPDATE_HELLOS * egress.interface.hello,
    };
    *out = Outgoing::Message(egress.target, message);
}
