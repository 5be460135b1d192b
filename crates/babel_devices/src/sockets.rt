//! The two sockets of a device.

ghost use Rattle.std.specs.Prelude.{◌≤◌, length, IfOk, IfSome};

use crate::devices::Device;
use babel_value::Addr;
use mio::unix::SourceFd;
use mio::{Interest, Poll, Token};
use std::io;
use std::net::{Ipv6Addr, Net, SocketAddr, SocketAddrV6, UdpSocket};
use std::os::fd::{AsRawFd, RawFd};

/// The group of Babel routers, ff02::1:6 (RFC 8966, section 4).
const GROUP: [u16; 8] = [0xff02, 0, 0, 0, 0, 0, 1, 6];

/// The sockets of a device.
#[derive(Drop)]
pub(crate) struct Sockets {
    scope: u32,
    /// Bound to the device's own address: all is sent from it, and datagrams for this router alone
    /// come to it.
    pub(crate) own: Watched,
    /// Bound to the group, so that no datagram comes twice.
    pub(crate) group: Watched,
}

/// A socket that a poll watches.
#[derive(Drop)]
pub(crate) struct Watched {
    socket: UdpSocket,
    /// Whether a datagram may wait at it.
    pub(crate) is_ready: bool,
}

impl Watched {
    /// Opens a socket that is bound to the address.
    fn open<R: Net>(
        rt: &R,
        poll: &Poll,
        address: SocketAddrV6,
        token: usize,
    ) -> io::Result<Watched> {
        let socket = bind(rt, address)?;
        watch(poll, socket.as_raw_fd(), token)?;
        Ok(Watched {
            socket,
            is_ready: true,
        })
    }
}

/// Lets the poll watch a descriptor.
pub(crate) fn watch(poll: &Poll, fd: RawFd, token: usize) -> io::Result<()> {
    poll.registry()
        .register(&mut SourceFd(&fd), Token(token), Interest::READABLE)
}

/// The group's address.
pub(crate) fn group_address() -> Ipv6Addr {
    Ipv6Addr::from_segments(GROUP)
}

impl Sockets {
    /// Opens the sockets of a device. `token` is that of its own socket, and the next one that of
    /// the group's.
    pub(crate) fn open<R: Net>(
        rt: &R,
        poll: &Poll,
        port: u16,
        token: usize,
        device: Device,
    ) -> io::Result<Sockets> {
        let Device { scope, address } = device;
        let address = SocketAddrV6::new(Ipv6Addr::from_octets(address), port, 0, scope);
        let own = Watched::open(rt, poll, address, token)?;
        let address = SocketAddrV6::new(group_address(), port, 0, scope);
        let group = Watched::open(rt, poll, address, token.saturating_add(1))?;
        Ok(Sockets { scope, own, group })
    }

    /// Whether a datagram may wait at one of the sockets.
    pub(crate) fn is_ready(&self) -> bool {
        self.own.is_ready || self.group.is_ready
    }

    /// Takes a datagram from one of the sockets.
    pub(crate) fn take(&mut self, port: u16, buf: &mut [u8]) -> io::Result<Option<(Addr, usize)>>
        ensures { IfOk result (λ came. IfSome came (λ it. it.1 ≤ length buf.new)) }
    {
        if self.own.is_ready {
            let came = take_from(&mut self.own, port, buf)?;
            if came.is_some() {
                return Ok(came);
            }
        }
        if self.group.is_ready {
            return take_from(&mut self.group, port, buf);
        }
        Ok(None)
    }

    /// Sends a datagram from the device's own address. Whether it was sent whole.
    pub(crate) fn send(&self, port: u16, to: Ipv6Addr, octets: &[u8]) -> bool {
        let to = SocketAddrV6::new(to, port, 0, self.scope);
        match self.own.socket.send_to(octets, to) {
            Ok(len) => len == octets.len(),
            Err(_) => false,
        }
    }
}

/// A socket that doesn't wait, and doesn't hear what this machine sends to the group.
fn bind<R: Net>(rt: &R, address: SocketAddrV6) -> io::Result<UdpSocket> {
    let socket = UdpSocket::bind(rt, address)?;
    socket.set_nonblocking(true)?;
    socket.set_multicast_loop_v6(false)?;
    Ok(socket)
}

/// Takes a datagram that waits at the socket. One from another port is dropped (RFC 8966, section
/// 4).
fn take_from(watched: &mut Watched, port: u16, buf: &mut [u8]) -> io::Result<Option<(Addr, usize)>>
    ensures { IfOk result (λ came. IfSome came (λ it. it.1 ≤ length buf.new)) }
{
    match watched.socket.recv_from(buf) {
        Ok((len, SocketAddr::V6(from))) if from.port() == port => {
            Ok(Some((Addr::V6(from.ip().octets()), len)))
        }
        Ok(_) => Ok(None),
        Err(error) if error.kind() == io::ErrorKind::Interrupted => Ok(None),
        Err(error) => {
            // Nothing waits, or the device has failed: its next event is waited for.
            watched.is_ready = false;
            match error.kind() {
                io::ErrorKind::WouldBlock => Ok(None),
                _ => Err(error),
            }
        }
    }
}
