//! What a configuration may have, and can't work.

use crate::configs::is_link_local;
use crate::explaining::write_place;
use crate::findings::Finding;
use crate::locations::{Location, Owner};
use crate::networks::{has_address, shared_in};
use crate::sentences::Word;
use crate::toml_places::FileText;
use babel_state::{Config, Interface};
use babel_value::{Addr, Prefix};
use std::alloc::Global;
use std::io::{self, Write};

/// Writes all that can't work with a configuration of which a speaker can be made.
pub(crate) fn write_config_warnings<W: Write>(
    alloc: Global,
    file: FileText<'_>,
    config: &Config,
    out: &mut W,
) -> io::Result<()> {
    for (iface, interface) in config.interfaces.iter().enumerate() {
        let owner = Owner::FILE.interface(iface);
        write_warning(
            alloc,
            file,
            shared_in(Owner::FILE, config, owner, interface),
            out,
        )?;
        write_warning(alloc, file, one_address_network(owner, interface), out)?;
        write_warning(alloc, file, no_peers(owner, interface), out)?;
        for (index, peer) in interface.peers.iter().enumerate() {
            let at = owner.key("peers").element(index);
            write_warning(alloc, file, peer_problem(at, config, interface, peer), out)?;
        }
    }
    Ok(())
}

fn write_warning<W: Write>(
    alloc: Global,
    file: FileText<'_>,
    found: Option<Finding<'_>>,
    out: &mut W,
) -> io::Result<()> {
    if let Some(finding) = found {
        write_place(file.name, finding.at.position(alloc, file.octets), out)?;
        writeln!(out, "warning: {}", finding.problem)?;
    }
    Ok(())
}

/// The network of one address, in which there is no room for a neighbour.
fn one_address_network(owner: Owner, interface: &Interface) -> Option<Finding<'static>> {
    match interface.ipv4 {
        Some((_, 32)) => Some(Finding::new(
            owner.key("ipv4"),
            "ipv4 of {} has the length 32, so no neighbour is in its network; write that of the \
             link, as /24",
            [Word::Owner(owner), Word::Empty, Word::Empty],
        )),
        _ => None,
    }
}

fn no_peers(owner: Owner, interface: &Interface) -> Option<Finding<'static>> {
    if !interface.peers.is_empty() {
        return None;
    }
    let words = [Word::Owner(owner), Word::Empty, Word::Empty];
    let text = "{} has no peers, so it sends to nobody; list them, as peers = [..]";
    Some(Finding::new(owner.table(), text, words))
}

/// Why datagrams of the peer at this location are refused.
fn peer_problem(
    at: Location<'static>,
    config: &Config,
    interface: &Interface,
    peer: &Addr,
) -> Option<Finding<'static>> {
    for (iface, other) in config.interfaces.iter().enumerate() {
        if has_address(other, *peer) {
            let own = Word::Owner(Owner::FILE.interface(iface));
            let text = "peer {} of {} is the address of {} itself, so its datagrams are refused";
            return Some(Finding::new(at, text, [Word::Addr(*peer), Word::Owner(at.owner), own]));
        }
    }
    let (text, network) = match *peer {
        Addr::V6(octets) if is_link_local(&octets) => return None,
        Addr::V6(_) => (
            "peer {} of {} is outside of fe80::/10, so its datagrams are refused",
            Word::Empty,
        ),
        Addr::V4(_) => (
            "peer {} of {} is outside of its network {}, so its datagrams are refused",
            network_without(interface, peer)?,
        ),
    };
    Some(Finding::new(
        at,
        text,
        [Word::Addr(*peer), Word::Owner(at.owner), network],
    ))
}

/// The network of the interface, if the peer is outside of it.
fn network_without(interface: &Interface, peer: &Addr) -> Option<Word<'static>> {
    let (octets, length) = interface.ipv4?;
    let network = Prefix::new(Addr::V4(octets), length)?;
    let around = Prefix::new(*peer, length)?;
    if around.cmp(&network).is_eq() {
        None
    } else {
        Some(Word::prefix(&network))
    }
}
