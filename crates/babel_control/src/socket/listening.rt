//! Where the socket listens: a file, or a port of this machine.

use crate::socket::streams::Stream;
use crate::{Access, ControlPlace};
use mio::net::TcpListener;
use std::fs::{self, Files};
use std::io;
use std::net::{Ipv6Addr, Net, SocketAddr, SocketAddrV6};
use std::os::fd::{AsRawFd, RawFd};
use std::os::unix::fs::FileTypeExt;
use std::os::unix::net::{UnixListener, UnixStream};

/// A socket that clients connect to. It doesn't wait.
#[derive(Drop)]
pub(crate) enum Listener {
    /// A Unix socket: who may write to its file may connect.
    Unix(UnixListener),
    /// A TCP socket at ::1: all processes of this machine may connect.
    Tcp(TcpListener),
}

impl Listener {
    /// Makes the socket.
    ///
    /// # Errors
    ///
    /// The socket can't be made, or something is at the path.
    pub(crate) fn open<R: Files + Net>(rt: &R, place: ControlPlace<'_>) -> io::Result<Listener> {
        match place {
            ControlPlace::Path(path) => match bind_path(rt, path) {
                Ok(listener) => Ok(Listener::Unix(listener)),
                Err(error) => Err(error),
            },
            ControlPlace::Port(port) => match TcpListener::bind(rt, local_address(port)) {
                Ok(listener) => Ok(Listener::Tcp(listener)),
                Err(error) => Err(error),
            },
        }
    }

    /// The next client, or an error if none waits.
    pub(crate) fn accept(&self) -> io::Result<Stream> {
        match self {
            Listener::Unix(listener) => {
                let (stream, _) = listener.accept()?;
                stream.set_nonblocking(true)?;
                Ok(Stream::Unix(stream))
            }
            Listener::Tcp(listener) => {
                let (stream, _) = listener.accept()?;
                Ok(Stream::Tcp(stream))
            }
        }
    }

    /// What its clients may ask for.
    pub(crate) fn access(&self) -> Access {
        match self {
            Listener::Unix(_) => Access::All,
            Listener::Tcp(_) => Access::Reading,
        }
    }

    pub(crate) fn descriptor(&self) -> RawFd {
        match self {
            Listener::Unix(listener) => listener.as_raw_fd(),
            Listener::Tcp(listener) => listener.as_raw_fd(),
        }
    }
}

/// The address of a port at ::1.
pub fn local_address(port: u16) -> SocketAddr {
    let loopback = Ipv6Addr::from_segments([0, 0, 0, 0, 0, 0, 0, 1]);
    SocketAddr::V6(SocketAddrV6::new(loopback, port, 0, 0))
}

/// Makes a socket at the path. One that a process left there, which doesn't listen any more, is
/// replaced. Another file isn't.
///
/// # Errors
///
/// The socket can't be made, or something is at the path.
pub fn bind_path<R: Files + Net>(rt: &R, path: &str) -> io::Result<UnixListener> {
    if is_stale(rt, path) {
        fs::remove_file(rt, path)?;
    }
    let listener = UnixListener::bind(rt, path)?;
    listener.set_nonblocking(true)?;
    Ok(listener)
}

/// Whether a socket is at the path on which no process listens.
fn is_stale<R: Files + Net>(rt: &R, path: &str) -> bool {
    let Ok(metadata) = fs::symlink_metadata(rt, path) else {
        return false;
    };
    if !metadata.file_type().is_socket() {
        return false;
    }
    match UnixStream::connect(rt, path) {
        Ok(_) => false,
        Err(error) => matches!(error.kind(), io::ErrorKind::ConnectionRefused),
    }
}
