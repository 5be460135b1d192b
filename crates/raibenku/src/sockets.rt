//! The wire over UDP sockets: one for each interface.

ghost use Rattle.std.specs.Prelude.{◌≡◌, ◌≤◌, length, IfOk, IfSome};

use crate::SpeakFault;
use crate::links::{Link, Links};
use babel_state::Target;
use babel_value::Addr;
use babel_wire::{Arrival, Wire, WireFault};
use std::alloc::{AllocError, Global};
use std::io;
use std::iter::Chain;
use std::net::{IpAddr, Ipv4Addr, Net, SocketAddr, UdpSocket};
use std::ops::Range;
use std::time::{Clock, Duration, Instant};

/// How long a turn waits for a datagram on each socket, in milliseconds.
const WAIT: u64 = 10;

/// The hop count of what is sent.
const HOPS: u32 = 1;

/// The socket of an interface, and to whom a datagram for all neighbours is sent.
#[derive(Drop)]
struct Port {
    socket: UdpSocket,
    peers: Vec<Addr>,
}

/// The sockets of a speaker, and its clock, which begins at 0. There is a socket for each
/// interface, over UDP and IPv4.
///
/// It counts the calls that failed, up to 2^63: a speaker is driven over it as long as there were
/// fewer.
#[derive(Drop)]
pub struct UdpWire<'a, R: Clock> {
    clock: &'a R,
    start: Instant,
    /// The moment that was returned last.
    moment: u64,
    port: u16,
    ports: Vec<Port>,
    /// The number of the socket that is asked first in the next turn, or one past the last.
    first: u8,
    /// How many calls of `recv` and `send` failed.
    pub faults: u64,
}

impl<'a, R: Clock + Net> UdpWire<'a, R> {
    /// Makes a socket for each interface, bound to its address and the port.
    ///
    /// # Errors
    ///
    /// W1 if an interface has IPv6 transport, W2 if a socket can't be made, or L8.
    pub fn bind(
        alloc: Global,
        rt: &'a R,
        links: Links,
        port: u16,
    ) -> Result<UdpWire<'a, R>, SpeakFault>
        ensures { IfOk result (λ wire. wire.faults ≡ 0) }
    {
        let Ok(start) = Instant::now(rt) else {
            return Err(SpeakFault::Socket);
        };
        let ports = bind_ports(alloc, rt, links, port)?;
        Ok(UdpWire {
            clock: rt,
            start,
            moment: 0,
            port,
            ports,
            first: 0,
            faults: 0,
        })
    }
}

/// A socket for each link, bound to its address and the port of this number.
fn bind_ports<R: Net>(
    alloc: Global,
    rt: &R,
    links: Links,
    number: u16,
) -> Result<Vec<Port>, SpeakFault> {
    let mut ports = Vec::new(alloc);
    for link in links.links {
        let port = bind_port(rt, link, number)?;
        push_port(&mut ports, port)?;
    }
    Ok(ports)
}

fn push_port(ports: &mut Vec<Port>, port: Port) -> Result<(), AllocError> {
    ports.push(port)?;
    Ok(())
}

fn bind_port<R: Net>(rt: &R, link: Link, number: u16) -> Result<Port, SpeakFault> {
    let Some(address) = link.address else {
        return Err(SpeakFault::Transport);
    };
    let peers = link.peers;
    match bind_socket(rt, address, number) {
        Ok(socket) => Ok(Port { socket, peers }),
        Err(_) => Err(SpeakFault::Socket),
    }
}

/// A socket that waits for a short time. What it sends stays on the link: the hop count is 1 (RFC
/// 8966, section 4).
fn bind_socket<R: Net>(rt: &R, address: [u8; 4], port: u16) -> io::Result<UdpSocket> {
    let socket = UdpSocket::bind(rt, socket_address(address, port))?;
    socket.set_ttl(HOPS)?;
    socket.set_read_timeout(Some(Duration::from_millis(WAIT)))?;
    Ok(socket)
}

fn socket_address(address: [u8; 4], port: u16) -> SocketAddr {
    SocketAddr::new(IpAddr::V4(Ipv4Addr::from_octets(address)), port)
}

/// Whether a call of a socket ended without a datagram, and did not fail.
fn is_nothing(kind: io::ErrorKind) -> bool {
    matches!(
        kind,
        io::ErrorKind::WouldBlock | io::ErrorKind::TimedOut | io::ErrorKind::Interrupted
    )
}

/// Whole centiseconds.
fn centiseconds(time: Duration) -> u64 {
    let rest = u64::from(time.subsec_millis()) / 10;
    time.as_secs().saturating_mul(100).saturating_add(rest)
}

impl<R: Clock> UdpWire<'_, R> {
    /// The moment that was asked last, in centiseconds since the wire was made.
    pub fn moment(&self) -> u64 {
        self.moment
    }

    /// The address that a datagram came from, if it is one of IPv4 with the speaker's own port.
    fn sender(&self, source: SocketAddr) -> Option<Addr> {
        match source.ip() {
            IpAddr::V4(addr) if source.port() == self.port => Some(Addr::V4(addr.octets())),
            _ => None,
        }
    }

    /// The numbers of the sockets, in the order in which they are asked.
    fn order(&self) -> Chain<Range<u8>, Range<u8>> {
        let count = u8::try_from(self.ports.len()).unwrap_or(u8::MAX);
        (self.first..count).chain(0..self.first.min(count))
    }

    /// Receives over the socket of the number. A datagram from another port is dropped.
    fn recv_over(&self, iface: u8, buf: &mut [u8]) -> io::Result<Option<Arrival>>
        ensures { IfOk result (λ came. IfSome came (λ arrival. arrival.len ≤ length buf.new)) }
    {
        let Some(port) = self.ports.get(usize::from(iface)) else {
            return Ok(None);
        };
        match port.socket.recv_from(buf) {
            Ok((len, source)) => match self.sender(source) {
                Some(source) => Ok(Some(Arrival { iface, source, len })),
                None => Ok(None),
            },
            Err(error) if is_nothing(error.kind()) => Ok(None),
            Err(error) => Err(error),
        }
    }

    /// Sends a datagram to one address.
    fn send_copy(&self, port: &Port, to: &Addr, octets: &[u8]) -> bool {
        let Addr::V4(address) = to else {
            return false;
        };
        match port
            .socket
            .send_to(octets, socket_address(*address, self.port))
        {
            Ok(len) => len == octets.len(),
            Err(_) => false,
        }
    }

    /// Sends a datagram to its target: a copy to each peer if it is for all. Each copy is tried,
    /// and the datagram is sent if each of them was.
    fn send_over(&self, target: &Target, octets: &[u8]) -> bool {
        let Some(port) = self.ports.get(usize::from(target.iface)) else {
            return false;
        };
        match &target.to {
            Some(to) => self.send_copy(port, to, octets),
            None => {
                let mut sent = true;
                for peer in &port.peers {
                    sent &= self.send_copy(port, peer, octets);
                }
                sent
            }
        }
    }
}

impl<R: Clock> Wire for UdpWire<'_, R> {
    ghost fault_count = { λ w. w.faults };

    fn now(&mut self) -> u64 {
        if let Ok(elapsed) = self.start.elapsed(self.clock) {
            self.moment = centiseconds(elapsed);
        }
        self.moment
    }

    /// Waits at most 10 ms on each socket. The socket after the one that received last is asked
    /// first.
    fn recv(&mut self, buf: &mut [u8]) -> Result<Option<Arrival>, WireFault> {
        for iface in self.order() {
            match self.recv_over(iface, buf) {
                Ok(None) => {}
                Ok(Some(arrival)) => {
                    self.first = iface.saturating_add(1);
                    return Ok(Some(arrival));
                }
                Err(_) => {
                    self.first = iface.saturating_add(1);
                    self.faults += 1;
                    return Err(WireFault);
                }
            }
        }
        Ok(None)
    }

    fn send(&mut self, target: &Target, octets: &[u8]) -> Result<(), WireFault> {
        if self.send_over(target, octets) {
            return Ok(());
        }
        self.faults += 1;
        Err(WireFault)
    }

    fn faults(&self) -> u64 {
        self.faults
    }
}
