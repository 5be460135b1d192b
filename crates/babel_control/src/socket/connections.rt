//! A client with its stream.

use crate::socket::streams::Stream;
use crate::{Client, Command};
use mio::unix::SourceFd;
use mio::{Interest, Registry, Token};
use std::io;

/// How often a client is read from in a turn, and how many octets each time.
const MAX_READS: u32 = 4;

/// The same of writing.
const MAX_WRITES: u32 = 16;

/// The most octets of one read.
const READ_ROOM: usize = 512;

/// A command of the client with this number. `None` is one that there isn't.
pub(crate) type Asked = (usize, Option<Command>);

/// A client, and the stream that it is connected by, which is watched with the token.
#[derive(Drop)]
pub(crate) struct Connection {
    pub(crate) stream: Stream,
    pub(crate) token: usize,
    pub(crate) client: Client,
}

/// What a read brought.
#[derive(Clone, Copy)]
enum Came {
    /// So many octets.
    Octets(usize),
    /// Nothing waits.
    Nothing,
    /// The client has sent all.
    End,
    /// The connection failed.
    Failure,
}

impl Connection {
    /// Takes what the client sent, and adds its commands.
    pub(crate) fn read(&mut self, number: usize, registry: &Registry, asked: &mut Vec<Asked>) {
        let mut room = [0u8; READ_ROOM];
        for _ in 0..MAX_READS {
            match read_once(&mut self.stream, &mut room) {
                Came::Octets(count) => {
                    let octets = room.get(..count).unwrap_or(&[]);
                    take_octets(&mut self.client, number, octets, asked);
                }
                Came::Nothing => return,
                Came::End => return self.client.note_end(),
                Came::Failure => return self.client.note_failure(),
            }
        }
        // So that what is left is reported again.
        let fd = self.stream.descriptor();
        let again = registry.reregister(&mut SourceFd(&fd), Token(self.token), both_ways());
        if again.is_err() {
            self.client.note_failure();
        }
    }

    /// Sends what waits for the client, as far as the system takes it.
    pub(crate) fn write(&mut self) {
        for _ in 0..MAX_WRITES {
            if self.client.waiting().is_empty() {
                return;
            }
            match self.stream.send(self.client.waiting()) {
                Ok(count) => self.client.note_sent(count),
                Err(error) => match error.kind() {
                    io::ErrorKind::WouldBlock | io::ErrorKind::Interrupted => return,
                    _ => return self.client.note_failure(),
                },
            }
        }
    }
}

/// For what the stream of a client is watched.
pub(crate) fn both_ways() -> Interest {
    Interest::READABLE | Interest::WRITABLE
}

fn read_once(stream: &mut Stream, room: &mut [u8]) -> Came {
    match stream.receive(room) {
        Ok(0) => Came::End,
        Ok(count) => Came::Octets(count),
        Err(error) => match error.kind() {
            io::ErrorKind::WouldBlock => Came::Nothing,
            io::ErrorKind::Interrupted => Came::Octets(0),
            _ => Came::Failure,
        },
    }
}

/// Takes octets of the client, and adds its commands.
fn take_octets(client: &mut Client, number: usize, octets: &[u8], asked: &mut Vec<Asked>) {
    for octet in octets {
        if let Some(command) = client.take_octet(*octet) {
            if asked.push((number, command)).is_err() {
                client.note_failure();
            }
        }
    }
}
