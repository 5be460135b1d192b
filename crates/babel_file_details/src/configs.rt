//! Why no speaker can be made of a configuration.

use crate::findings::Finding;
use crate::locations::Owner;
use crate::sentences::Word;
use babel_state::{
    Config, ConfigFault, Interface, MAX_COST, MAX_HELLO_INTERVAL, MAX_INTERFACES, MAX_PEERS,
    MAX_PREFIXES,
};
use babel_value::{Addr, Family, Prefix};

/// The cause of a fault whose code is known.
pub(crate) fn config_problem(
    owner: Owner,
    config: &Config,
    fault: ConfigFault,
) -> Option<Finding<'static>> {
    match fault {
        ConfigFault::ReservedRouterId => Some(reserved_router_id(owner)),
        ConfigFault::InterfaceCount => Some(interface_count(owner, config.interfaces.len())),
        ConfigFault::NominalCost => first_interface(owner, config, Test::Cost),
        ConfigFault::HelloInterval => first_interface(owner, config, Test::Hello),
        ConfigFault::Prefixes => prefixes_problem(owner, config.prefixes.as_slice()),
        ConfigFault::InterfaceAddresses => first_interface(owner, config, Test::Addresses),
        ConfigFault::Memory => Some(Finding::memory()),
    }
}

/// The first interface with IPv6 transport.
pub(crate) fn ipv6_transport(config: &Config) -> Option<Finding<'static>> {
    for (iface, interface) in config.interfaces.iter().enumerate() {
        if interface.transport == Family::Ipv6 {
            let owner = Owner::FILE.interface(iface);
            return Some(Finding::new(
                owner.key("transport"),
                "{} has IPv6 transport, for which speak has no sockets; write transport = \"ipv4\"",
                [Word::Owner(owner), Word::Empty, Word::Empty],
            ));
        }
    }
    None
}

fn reserved_router_id(owner: Owner) -> Finding<'static> {
    Finding::new(
        owner.key("router-id"),
        "a router-id of zeros alone or of ones alone is reserved; choose another one",
        [Word::Empty; 3],
    )
}

fn interface_count(owner: Owner, count: usize) -> Finding<'static> {
    if count == 0 {
        let words = [Word::Owner(owner), Word::Empty, Word::Empty];
        let text = "{} has no interface; write 1 to 8 tables [[interface]]";
        Finding::new(owner.table(), text, words)
    } else {
        let words = [Word::Count(count), Word::Empty, Word::Empty];
        let text = "there are {} interfaces, and at most 8 are allowed";
        Finding::new(owner.interface(MAX_INTERFACES).table(), text, words)
    }
}

/// A test of an interface.
#[derive(Clone, Copy)]
enum Test {
    Cost,
    Hello,
    Addresses,
}

/// The problem of the first interface that has one.
fn first_interface(owner: Owner, config: &Config, test: Test) -> Option<Finding<'static>> {
    for (iface, interface) in config.interfaces.iter().enumerate() {
        let owner = owner.interface(iface);
        let found = match test {
            Test::Cost => out_of_range(owner, "cost", interface.cost, MAX_COST),
            Test::Hello => out_of_range(owner, "hello", interface.hello, MAX_HELLO_INTERVAL),
            Test::Addresses => bad_addresses(owner, interface),
        };
        if found.is_some() {
            return found;
        }
    }
    None
}

/// The number at the key, if it isn't in 1 to the greatest.
fn out_of_range(
    owner: Owner,
    key: &'static str,
    number: u16,
    greatest: u16,
) -> Option<Finding<'static>> {
    if number >= 1 && number <= greatest {
        return None;
    }
    Some(Finding::out_of_range(owner.key(key), key, i64::from(number), (1, greatest)))
}

fn prefixes_problem(owner: Owner, prefixes: &[Prefix]) -> Option<Finding<'static>> {
    let at = owner.key("prefixes");
    if prefixes.len() > MAX_PREFIXES {
        let words = [Word::Count(prefixes.len()), Word::Empty, Word::Empty];
        let text = "there are {} prefixes, and at most 64 are allowed";
        return Some(Finding::new(at.element(MAX_PREFIXES), text, words));
    }
    for (index, prefix) in prefixes.iter().enumerate() {
        for (first, other) in prefixes.iter().enumerate().take(index) {
            if other.cmp(prefix).is_eq() {
                let words = [Word::prefix(prefix), Word::Count(first), Word::Empty];
                let text = "prefix {} is listed twice; it is element {} too";
                return Some(Finding::new(at.element(index), text, words));
            }
        }
    }
    None
}

fn bad_addresses(owner: Owner, interface: &Interface) -> Option<Finding<'static>> {
    if lacks_transport(interface) {
        let family = Word::Text(name(interface.transport));
        let words = [Word::Owner(owner), family, Word::Empty];
        let text = "{} has no {} address, which its transport needs";
        return Some(Finding::new(owner.table(), text, words));
    }
    if let Some(octets) = interface.ipv6 {
        if !is_link_local(&octets) {
            let words = [
                Word::Addr(Addr::V6(octets)),
                Word::Owner(owner),
                Word::Empty,
            ];
            let text = "ipv6 address {} of {} is not in fe80::/10";
            return Some(Finding::new(owner.key("ipv6"), text, words));
        }
    }
    if let Some((_, length)) = interface.ipv4 {
        if length > 32 {
            let words = [
                Word::Count(usize::from(length)),
                Word::Owner(owner),
                Word::Empty,
            ];
            let text = "the length {} of {}'s network is not in 0 to 32";
            return Some(Finding::new(owner.key("ipv4"), text, words));
        }
    }
    peers_problem(owner, interface)
}

fn lacks_transport(interface: &Interface) -> bool {
    match interface.transport {
        Family::Ipv4 => interface.ipv4.is_none(),
        Family::Ipv6 => interface.ipv6.is_none(),
    }
}

/// Whether an IPv6 address is in fe80::/10 (RFC 4291, section 2.5.6).
pub(crate) fn is_link_local(octets: &[u8; 16]) -> bool {
    octets[0] == 0xfe && octets[1] >> 6 == 0b10
}

fn peers_problem(owner: Owner, interface: &Interface) -> Option<Finding<'static>> {
    let at = owner.key("peers");
    let count = interface.peers.len();
    if count > MAX_PEERS {
        let words = [Word::Owner(owner), Word::Count(count), Word::Empty];
        let text = "{} has {} peers, and at most 16 are allowed";
        return Some(Finding::new(at.element(MAX_PEERS), text, words));
    }
    for (index, peer) in interface.peers.iter().enumerate() {
        if peer.family() != interface.transport {
            let family = Word::Text(name(interface.transport));
            let words = [Word::Addr(*peer), Word::Owner(owner), family];
            let text = "peer {} of {} is not an {} address, which its transport needs";
            return Some(Finding::new(at.element(index), text, words));
        }
    }
    None
}

fn name(family: Family) -> &'static str {
    match family {
        Family::Ipv4 => "IPv4",
        Family::Ipv6 => "IPv6",
    }
}
