//! The configuration of a speaker, and what may be wrong with it.

ghost use Rattle.std.specs.Prelude.{◌≡◌, ◌↔◌, Some, IsOk, IsNone, IfErr};
ghost use Rattle.std.specs.List.{list_any};
ghost use Rattle.babel_value.specs.RouterIds.{is_reserved};
ghost use Rattle.babel_state.specs.Sameness.{has_prefix};
ghost use Rattle.babel_state.specs.Configs.{lacks_transport, has_global_address, has_long_network, has_foreign_peer, has_bad_addresses, has_bad_cost, has_bad_hello, is_link_local, repeats, config_fault};

use crate::{ConfigFault, MAX_COST, MAX_HELLO_INTERVAL, MAX_INTERFACES, MAX_PEERS, MAX_PREFIXES};
use babel_value::{Addr, Family, Prefix};

/// The configuration of a speaker. [`Config::check`] says whether a speaker can be made of it.
#[derive(Debug, Drop)]
pub struct Config {
    /// The speaker's own router-id (RFC 8966, section 4.1.3).
    pub router_id: [u8; 8],
    /// The seqno with which the speaker begins (RFC 8966, section 3.2.2).
    pub seqno: u16,
    /// Whether entries of the source table are collected (RFC 8966, section 3.2.5).
    pub collect: bool,
    /// The prefixes that the speaker announces at first.
    pub prefixes: Vec<Prefix>,
    /// The interfaces, by their numbers from 0 on.
    pub interfaces: Vec<Interface>,
}

/// The configuration of an interface (RFC 8966, section 3.2.3).
#[derive(Debug, Drop)]
pub struct Interface {
    /// The family of the addresses over which datagrams are sent.
    pub transport: Family,
    /// The interface's IPv4 address, and the length of its network's prefix.
    pub ipv4: Option<([u8; 4], u8)>,
    /// The interface's IPv6 address, in fe80::/10.
    pub ipv6: Option<[u8; 16]>,
    /// To whom a datagram for all neighbours is sent.
    pub peers: Vec<Addr>,
    /// The nominal cost of receiving over the interface, 1 to 65534 (RFC 8966, appendix A.2.1).
    pub cost: u16,
    /// The interval between two Hellos, 1 to 4000 centiseconds (RFC 8966, section 3.4.1).
    pub hello: u16,
}

impl Interface {
    /// Whether it has no address of its transport's family.
    fn lacks_transport(&self) -> bool
        ensures { result ≡ lacks_transport self.now }
    {
        match self.transport {
            Family::Ipv4 => self.ipv4.is_none(),
            Family::Ipv6 => self.ipv6.is_none(),
        }
    }

    /// Whether its IPv6 address is outside fe80::/10.
    fn has_global_address(&self) -> bool
        ensures { result ≡ has_global_address self.now }
    {
        match self.ipv6 {
            Some(octets) => !is_link_local(&octets),
            None => false,
        }
    }

    /// Whether the length of its IPv4 network is above 32.
    fn has_long_network(&self) -> bool
        ensures { result ≡ has_long_network self.now }
    {
        match self.ipv4 {
            Some((_, length)) => length > 32,
            None => false,
        }
    }

    /// Whether a peer is of another family than the transport.
    fn has_foreign_peer(&self) -> bool
        ensures { result ≡ has_foreign_peer self.now }
    {
        self.peers
            .iter()
            .any(|peer| peer.family() != self.transport)
    }

    /// Whether C6 holds.
    #[tactic(auto, unfolding(crate::specs::Configs::has_bad_addresses))]
    fn has_bad_addresses(&self) -> bool
        ensures { result ≡ has_bad_addresses self.now }
    {
        self.lacks_transport()
            || self.has_global_address()
            || self.has_long_network()
            || self.peers.len() > MAX_PEERS
            || self.has_foreign_peer()
    }

    /// Whether C3 holds.
    #[tactic(auto, unfolding(crate::specs::Configs::has_bad_cost))]
    fn has_bad_cost(&self) -> bool
        ensures { result ≡ has_bad_cost self.now }
    {
        self.cost < 1 || self.cost > MAX_COST
    }

    /// Whether C4 holds.
    #[tactic(auto, unfolding(crate::specs::Configs::has_bad_hello))]
    fn has_bad_hello(&self) -> bool
        ensures { result ≡ has_bad_hello self.now }
    {
        self.hello < 1 || self.hello > MAX_HELLO_INTERVAL
    }
}

/// Whether an IPv6 address is in fe80::/10 (RFC 4291, section 2.5.6).
#[tactic(auto, unfolding(crate::specs::Configs::is_link_local))]
pub(crate) fn is_link_local(octets: &[u8; 16]) -> bool
    ensures { result ≡ is_link_local octets.now }
{
    octets[0] == 0xfe && octets[1] >> 6 == 0b10
}

/// Whether the prefix is among the others.
fn is_among(prefix: &Prefix, others: &[Prefix]) -> bool
    ensures { result ≡ has_prefix prefix.now others.now }
{
    others.iter().any(|other| prefix.cmp(other).is_eq())
}

/// Whether a prefix is listed twice.
#[tactic(auto, unfolding(crate::specs::Configs::repeats))]
fn repeats(prefixes: &[Prefix]) -> bool
    ensures { result ≡ repeats prefixes.now }
{
    let mut rest = prefixes;
    while let Some((first, others)) = rest.split_first() {
        if is_among(first, others) {
            return true;
        }
        rest = others;
    }
    false
}

impl Config {
    /// Whether a speaker can be made of the configuration: the first cause of C1 to C6 that holds.
    pub fn check(&self) -> Result<(), ConfigFault>
        ensures ok { IsOk result ↔ IsNone (config_fault self.now) }
        ensures refused { IfErr result (λ fault. config_fault self.now ≡ Some fault) }
    {
        match self.fault() {
            Some(fault) => Err(fault),
            None => Ok(()),
        }
    }

    /// The first cause of C1 to C6 that holds.
    #[tactic(auto, unfolding(crate::specs::Configs::config_fault))]
    fn fault(&self) -> Option<ConfigFault>
        ensures { result ≡ config_fault self.now }
    {
        if self.has_reserved_router_id() {
            return Some(ConfigFault::ReservedRouterId);
        }
        if self.interfaces.is_empty() || self.interfaces.len() > MAX_INTERFACES {
            return Some(ConfigFault::InterfaceCount);
        }
        if self.has_bad_cost() {
            return Some(ConfigFault::NominalCost);
        }
        if self.has_bad_hello() {
            return Some(ConfigFault::HelloInterval);
        }
        if self.prefixes.len() > MAX_PREFIXES || repeats(&self.prefixes) {
            return Some(ConfigFault::Prefixes);
        }
        if self.has_bad_addresses() {
            return Some(ConfigFault::InterfaceAddresses);
        }
        None
    }

    fn has_reserved_router_id(&self) -> bool
        ensures { result ≡ is_reserved self.now.router_id }
    {
        self.router_id == [0x00; 8] || self.router_id == [0xff; 8]
    }

    fn has_bad_cost(&self) -> bool
        ensures { result ≡ list_any has_bad_cost self.now.interfaces.items }
    {
        self.interfaces.iter().any(|face| face.has_bad_cost())
    }

    fn has_bad_hello(&self) -> bool
        ensures { result ≡ list_any has_bad_hello self.now.interfaces.items }
    {
        self.interfaces.iter().any(|face| face.has_bad_hello())
    }

    fn has_bad_addresses(&self) -> bool
        ensures { result ≡ list_any has_bad_addresses self.now.interfaces.items }
    {
        self.interfaces.iter().any(|face| face.has_bad_addresses())
    }
}
