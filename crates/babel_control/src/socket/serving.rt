//! All clients, served once a turn.

use crate::socket::connections::{Asked, Connection, both_ways};
use crate::socket::listening::Listener;
use crate::{Changes, Client, ControlPlace, Logging, Monitoring, Tables, View, Wish, needs_tables};
use mio::unix::SourceFd;
use mio::{Interest, Registry, Token};
use std::alloc::{AllocError, Global};
use std::fs::Files;
use std::io;
use std::net::Net;

/// The most clients at once. One more is closed at once.
pub const MAX_CLIENTS: usize = 16;

/// The most clients that are accepted in a turn.
const MAX_ACCEPTED: u32 = 16;

/// The control socket of a speaker, with its clients.
#[derive(Drop)]
pub struct ControlSocket {
    alloc: Global,
    listener: Listener,
    /// The token of the listener. That of the client with number `n` is `n + 1` more.
    token: usize,
    clients: Vec<Option<Connection>>,
    changes: Changes,
}

impl ControlSocket {
    /// Makes the socket at the place. It and its clients are watched with `MAX_CLIENTS + 1` tokens.
    ///
    /// # Errors
    ///
    /// The socket can't be made or watched, something else is at the path, or an allocation failed.
    pub fn open<R: Files + Net>(
        alloc: Global,
        rt: &R,
        place: ControlPlace<'_>,
        registry: &Registry,
        token: usize,
    ) -> io::Result<ControlSocket> {
        let clients = no_clients(alloc)?;
        let listener = Listener::open(rt, place)?;
        let fd = listener.descriptor();
        registry.register(&mut SourceFd(&fd), Token(token), Interest::READABLE)?;
        Ok(ControlSocket {
            alloc,
            listener,
            token,
            clients,
            changes: Changes::new(alloc),
        })
    }

    /// Serves the clients. Bit 0 of `ready` is set if the listener was ready, and bit `n + 1` if
    /// the client with number `n` was. Returns what a client wants of the speaker.
    pub fn serve<T: Tables>(
        &mut self,
        ready: u64,
        registry: &Registry,
        view: &View<'_, T>,
    ) -> Wish {
        let mut asked = Vec::new(self.alloc);
        read_all(&mut self.clients, ready, registry, &mut asked);
        let wish = self.answer_all(&asked, view);
        if ready % 2 == 1 {
            self.accept(registry, view);
        }
        for slot in self.clients.iter_mut() {
            write_to(slot);
        }
        wish
    }

    /// Whether there is a client.
    pub fn has_clients(&self) -> bool {
        for slot in &self.clients {
            if slot.is_some() {
                return true;
            }
        }
        false
    }

    /// Whether a client is sent the log.
    pub fn has_log_reader(&self) -> bool {
        for slot in &self.clients {
            if let Some(connection) = slot {
                if let Logging::On = connection.client.logging() {
                    return true;
                }
            }
        }
        false
    }

    /// Adds lines of the log for each client that is sent it. `None`: there was no room for them,
    /// and no client can go on with the log: the connections of those that are sent it end.
    pub fn push_log(&mut self, lines: Option<&str>) {
        for slot in self.clients.iter_mut() {
            if let Some(connection) = slot {
                if let Some(lines) = lines {
                    connection.client.push_log(lines);
                } else if let Logging::On = connection.client.logging() {
                    connection.client.note_failure();
                }
            }
        }
    }

    /// Writes the changes to the clients that monitor, and then the replies.
    fn answer_all<T: Tables>(&mut self, asked: &[Asked], view: &View<'_, T>) -> Wish {
        if has_monitor(&self.clients) || wants_tables(asked) {
            let mut text = String::new(self.alloc);
            let written = self.changes.write_changes(view, &mut text);
            push_changes(&mut self.clients, written, &text);
        }
        let mut wish = Wish::Nothing;
        for (number, command) in asked {
            if let Some(Some(connection)) = self.clients.get_mut(*number) {
                if let Wish::Stop = connection.client.answer(command, view, &self.changes) {
                    wish = Wish::Stop;
                }
            }
        }
        wish
    }

    /// Takes the clients that wait at the listener.
    fn accept<T: Tables>(&mut self, registry: &Registry, view: &View<'_, T>) {
        for _ in 0..MAX_ACCEPTED {
            let Ok(stream) = self.listener.accept() else {
                return;
            };
            let Some((number, slot)) = free_slot(&mut self.clients) else {
                continue;
            };
            let token = self.token.saturating_add(number).saturating_add(1);
            let fd = stream.descriptor();
            let watched = registry.register(&mut SourceFd(&fd), Token(token), both_ways());
            if watched.is_ok() {
                let client = Client::new(self.alloc, self.listener.access(), view);
                *slot = Some(Connection {
                    stream,
                    token,
                    client,
                });
            }
        }
        // So that those that are left are reported again.
        let fd = self.listener.descriptor();
        let _ = registry.reregister(&mut SourceFd(&fd), Token(self.token), Interest::READABLE);
    }
}

fn no_clients(alloc: Global) -> Result<Vec<Option<Connection>>, AllocError> {
    let mut clients = Vec::new(alloc);
    for _ in 0..MAX_CLIENTS {
        clients.push(None)?;
    }
    Ok(clients)
}

/// Takes what the clients that are ready sent.
fn read_all(
    clients: &mut [Option<Connection>],
    ready: u64,
    registry: &Registry,
    asked: &mut Vec<Asked>,
) {
    let mut bits = ready / 2;
    for (number, slot) in clients.iter_mut().enumerate() {
        if bits % 2 == 1 {
            if let Some(connection) = slot {
                connection.read(number, registry, asked);
            }
        }
        bits /= 2;
    }
}

fn has_monitor(clients: &[Option<Connection>]) -> bool {
    for slot in clients {
        if let Some(connection) = slot {
            if let Monitoring::Yes = connection.client.monitoring() {
                return true;
            }
        }
    }
    false
}

fn wants_tables(asked: &[Asked]) -> bool {
    for (_, command) in asked {
        if needs_tables(command) {
            return true;
        }
    }
    false
}

/// Adds the changes for each client that monitors. If they could not be written its connection is
/// closed.
fn push_changes(
    clients: &mut [Option<Connection>],
    written: Result<(), AllocError>,
    changes: &str,
) {
    for slot in clients.iter_mut() {
        if let Some(connection) = slot {
            match written {
                Ok(()) => connection.client.push_changes(changes),
                Err(_) => connection.client.note_failure(),
            }
        }
    }
}

/// The number of a client that there isn't, and where it will be.
fn free_slot(clients: &mut [Option<Connection>]) -> Option<(usize, &mut Option<Connection>)> {
    for (number, slot) in clients.iter_mut().enumerate() {
        if slot.is_none() {
            return Some((number, slot));
        }
    }
    None
}

/// Sends what waits for a client, and closes its connection if that has ended.
fn write_to(slot: &mut Option<Connection>) {
    if let Some(connection) = slot {
        connection.write();
        if connection.client.has_ended() {
            *slot = None;
        }
    }
}
