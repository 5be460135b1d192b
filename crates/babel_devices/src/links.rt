//! The wire over real links: two sockets for each device, and one wait over all of them.

ghost use Rattle.std.specs.Prelude.{◌≡◌, ◌≤◌, length, IfOk, IfSome};

use crate::LinkWireFault;
use crate::devices::Device;
use crate::sockets::{Sockets, group_address, watch};
use babel_state::Target;
use babel_value::Addr;
use babel_wire::{Arrival, Wire, WireFault};
use mio::unix::SourceFd;
use mio::{Events, Interest, Poll, Registry, Token};
use std::alloc::{AllocError, Global};
use std::io::{self, Read};
use std::net::{Ipv6Addr, Net};
use std::os::fd::AsRawFd;
use std::time::{Clock, Duration, Instant};

/// How many datagrams are taken before the other sources are looked at.
const MAX_TAKEN: u32 = 64;

/// How many events are looked at in one wait: two for each interface, the input, and those of other
/// sources.
const MAX_EVENTS: usize = 64;

/// The token of the standard input. Those of sockets are twice their device's number, and one more.
const INPUT: usize = usize::MAX;

/// The least token of sources that the wire only waits for, see [`LinkWire::take_ready`].
pub const FIRST_OTHER: usize = 1 << 16;

/// After how long the devices are looked at again, in centiseconds, if all can be used.
const LOOK_AGAIN: u64 = 1000;

/// The same if one can't be used.
const LOOK_SOON: u64 = 100;

/// The most octets of the input that wait to be taken. Those that come after are lost.
const MAX_HEARD: usize = 4096;

/// The sockets of a speaker, its clock, which begins at 0, and the input whose end stops it.
#[derive(Drop)]
pub struct LinkWire<'a, R: Clock, I: Read + AsRawFd> {
    /// The system, with its clock and its sockets.
    pub system: &'a R,
    input: &'a mut I,
    start: Instant,
    /// The moment that was returned last.
    pub moment: u64,
    port: u16,
    /// The sockets of each device, unless it can't be used now.
    links: Vec<Option<Sockets>>,
    poll: Poll,
    events: Events<Global>,
    /// The number of the link that is asked first.
    first: usize,
    /// How many datagrams were taken since the sources were looked at.
    taken: u32,
    /// How long `recv` waits.
    wait: Duration,
    /// Whether the next `recv` takes nothing.
    is_passing: bool,
    /// Whether the input has ended.
    pub has_ended: bool,
    /// What came over the input.
    heard: Vec<u8>,
    /// Whether a socket failed since the devices were looked at.
    is_disturbed: bool,
    /// When the devices are looked at again.
    next_look: u64,
    /// A bit for each of the other sources that was ready.
    others: u64,
    pub faults: u64,
}

impl<'a, R: AllocGlobal + Clock + Net, I: Read + AsRawFd> LinkWire<'a, R, I> {
    /// A wire of so many devices, none of which has sockets yet.
    ///
    /// # Errors
    ///
    /// The clock can't be read, nothing can be waited for, or an allocation failed.
    pub fn new(
        rt: &'a R,
        input: &'a mut I,
        port: u16,
        count: usize,
    ) -> Result<LinkWire<'a, R, I>, LinkWireFault>
        ensures { IfOk result (λ wire. wire.faults ≡ 0) }
    {
        let alloc = rt.alloc();
        let Ok(start) = Instant::now(rt) else {
            return Err(LinkWireFault::System);
        };
        let Ok(poll) = Poll::new(rt) else {
            return Err(LinkWireFault::System);
        };
        let links = no_links(alloc, count)?;
        let events = Events::with_capacity(alloc, MAX_EVENTS)?;
        // A file and /dev/null can't be waited for, and have no end that comes later.
        let _ = watch(&poll, input.as_raw_fd(), INPUT);
        Ok(LinkWire {
            system: rt,
            input,
            start,
            moment: 0,
            port,
            links,
            poll,
            events,
            first: 0,
            taken: 0,
            wait: Duration::from_millis(0),
            is_passing: false,
            has_ended: false,
            heard: Vec::new(alloc),
            is_disturbed: false,
            next_look: LOOK_AGAIN,
            others: 0,
            faults: 0,
        })
    }
}

fn no_links(alloc: Global, count: usize) -> Result<Vec<Option<Sockets>>, AllocError> {
    let mut links = Vec::new(alloc);
    for _ in 0..count {
        links.push(None)?;
    }
    Ok(links)
}

/// Whole centiseconds.
fn centiseconds(time: Duration) -> u64 {
    let rest = u64::from(time.subsec_millis()) / 10;
    time.as_secs().saturating_mul(100).saturating_add(rest)
}

impl<R: Clock + Net, I: Read + AsRawFd> LinkWire<'_, R, I> {
    /// Opens the sockets of a device, in place of those that it had.
    ///
    /// # Errors
    ///
    /// A socket can't be bound to the port, or can't be waited for. The device has none then.
    pub fn open_link(&mut self, number: usize, device: Device) -> io::Result<()>
        ensures { self.new.faults ≡ self.old.faults }
    {
        self.close_link(number);
        let token = number.saturating_mul(2);
        let sockets = Sockets::open(self.system, &self.poll, self.port, token, device)?;
        if let Some(link) = self.links.get_mut(number) {
            *link = Some(sockets);
        }
        Ok(())
    }
}

impl<R: Clock, I: Read + AsRawFd> LinkWire<'_, R, I> {
    /// Closes the sockets of a device.
    pub fn close_link(&mut self, number: usize)
        ensures { self.new.faults ≡ self.old.faults }
    {
        if let Some(link) = self.links.get_mut(number) {
            *link = None;
        }
    }

    /// Where other sources are registered, with tokens from `FIRST_OTHER` on. A turn ends its wait
    /// if one is ready.
    pub fn registry(&self) -> &Registry {
        self.poll.registry()
    }

    /// The other sources that were ready since this was asked last: bit `n` is that of the token
    /// `FIRST_OTHER + n`.
    pub fn take_ready(&mut self) -> u64
        ensures { self.new.faults ≡ self.old.faults }
    {
        let others = self.others;
        self.others = 0;
        others
    }

    /// Whether the devices have to be looked at: the input reports one, a socket failed, or it is
    /// time.
    pub fn has_to_look(&self) -> bool {
        self.is_disturbed || !self.heard.is_empty() || self.moment >= self.next_look
    }

    /// What came over the input.
    pub fn heard(&self) -> &[u8] {
        &self.heard
    }

    /// The devices were looked at, and the whole lines of the input were taken.
    pub fn note_look(&mut self)
        ensures { self.new.faults ≡ self.old.faults }
    {
        self.is_disturbed = false;
        // A line that isn't whole yet is lost. The launcher writes each by one call, so there is
        // none.
        self.heard.clear();
        let pause = if self.are_open() {
            LOOK_AGAIN
        } else {
            LOOK_SOON
        };
        self.next_look = self.moment.saturating_add(pause);
    }

    /// Whether each device has sockets.
    fn are_open(&self) -> bool {
        for link in &self.links {
            if link.is_none() {
                return false;
            }
        }
        true
    }

    /// The next turn waits for a datagram until this moment, or until the devices are looked at.
    pub fn wait_until(&mut self, moment: u64)
        ensures { self.new.faults ≡ self.old.faults }
    {
        let due = Duration::from_millis(moment.min(self.next_look).saturating_mul(10));
        let passed = match self.start.elapsed(self.system) {
            Ok(passed) => passed,
            // A clock that fails must not make the speaker late.
            Err(_) => due,
        };
        self.wait = due.saturating_sub(passed);
    }

    /// Waits until this moment, whatever comes meanwhile. The next `recv` doesn't wait.
    pub fn pause_until(&mut self, moment: u64)
        ensures { self.new.faults ≡ self.old.faults }
    {
        if moment > self.moment {
            self.wait_until(moment);
            self.system.sleep(self.wait);
        }
        self.wait = Duration::from_millis(0);
    }

    /// The next `recv` takes nothing, and doesn't wait.
    pub fn pass(&mut self)
        ensures { self.new.faults ≡ self.old.faults }
    {
        self.is_passing = true;
    }

    /// Whether a datagram may wait at a socket.
    fn is_ready(&self) -> bool {
        for link in &self.links {
            if let Some(sockets) = link {
                if sockets.is_ready() {
                    return true;
                }
            }
        }
        false
    }

    /// Looks which sources are ready, and waits for one if none is.
    fn look(&mut self) -> io::Result<()>
        ensures faults { self.new.faults ≡ self.old.faults }
    {
        let wait = if self.is_ready() {
            Duration::from_millis(0)
        } else {
            self.wait
        };
        self.taken = 0;
        match self.poll.poll(&mut self.events, Some(wait)) {
            Ok(()) => {}
            Err(error) if error.kind() == io::ErrorKind::Interrupted => return Ok(()),
            Err(error) => return Err(error),
        }
        for event in self.events.iter() {
            let Token(token) = event.token();
            if token == INPUT {
                let has_ended = take_input(&self.poll, self.input, &mut self.heard);
                self.has_ended = self.has_ended || has_ended;
            } else if token >= FIRST_OTHER {
                self.others |= bit_of(token);
            } else {
                note_ready(&mut self.links, token);
            }
        }
        Ok(())
    }

    /// Takes a datagram, and waits for one if none is there.
    fn take_or_wait(&mut self, buf: &mut [u8]) -> io::Result<Option<Arrival>>
        ensures faults { self.new.faults ≡ self.old.faults }
        ensures within { IfOk result (λ came. IfSome came (λ arrival. arrival.len ≤ length buf.new)) }
    {
        if self.taken < MAX_TAKEN {
            let came = take(&mut self.links, &mut self.first, self.port, buf)?;
            if came.is_some() {
                self.taken = self.taken.saturating_add(1);
                return Ok(came);
            }
        }
        self.look()?;
        take(&mut self.links, &mut self.first, self.port, buf)
    }

    /// Sends a datagram over a device.
    fn send_over(&self, target: &Target, octets: &[u8]) -> bool {
        let to = match target.to {
            None => Some(group_address()),
            Some(Addr::V6(address)) => Some(Ipv6Addr::from_octets(address)),
            Some(Addr::V4(_)) => None,
        };
        match (self.links.get(usize::from(target.iface)), to) {
            (Some(Some(sockets)), Some(to)) => sockets.send(self.port, to, octets),
            _ => false,
        }
    }
}

/// The bit of one of the other sources.
fn bit_of(token: usize) -> u64 {
    match token.saturating_sub(FIRST_OTHER) {
        number @ 0..64 => 1 << number,
        _ => 0,
    }
}

/// A socket is ready.
fn note_ready(links: &mut [Option<Sockets>], token: usize) {
    if let Some(Some(sockets)) = links.get_mut(token / 2) {
        match token % 2 {
            0 => sockets.own.is_ready = true,
            _ => sockets.group.is_ready = true,
        }
    }
}

/// Takes a datagram that waits at a socket of one of the links. The one after the link that it came
/// over is asked first the next time.
fn take(
    links: &mut [Option<Sockets>],
    first: &mut usize,
    port: u16,
    buf: &mut [u8],
) -> io::Result<Option<Arrival>>
    ensures { IfOk result (λ came. IfSome came (λ arrival. arrival.len ≤ length buf.new)) }
{
    let count = links.len();
    for step in 0..count {
        let number = first.saturating_add(step) % count;
        let Some(Some(sockets)) = links.get_mut(number) else {
            continue;
        };
        if let Some((source, len)) = sockets.take(port, buf)? {
            *first = number.saturating_add(1) % count;
            let iface = u8::try_from(number).unwrap_or(u8::MAX);
            return Ok(Some(Arrival { iface, source, len }));
        }
    }
    Ok(None)
}

/// Takes what came over the input, and returns whether that has ended.
fn take_input<I: Read + AsRawFd>(poll: &Poll, input: &mut I, heard: &mut Vec<u8>) -> bool {
    let mut room = [0u8; 512];
    let has_ended = match input.read(&mut room) {
        Ok(0) => true,
        Ok(count) => {
            if let (Some(octets), true) = (room.get(..count), heard.len() < MAX_HEARD) {
                // Without memory the devices are looked at later.
                let _ = heard.extend_from_slice(octets);
            }
            false
        }
        Err(error) => error.kind() != io::ErrorKind::Interrupted,
    };
    let fd = input.as_raw_fd();
    // So that what is left is reported again.
    let again = poll
        .registry()
        .reregister(&mut SourceFd(&fd), Token(INPUT), Interest::READABLE);
    has_ended || again.is_err()
}

impl<R: Clock, I: Read + AsRawFd> Wire for LinkWire<'_, R, I> {
    ghost fault_count = { λ w. w.faults };

    fn now(&mut self) -> u64 {
        if let Ok(elapsed) = self.start.elapsed(self.system) {
            self.moment = centiseconds(elapsed);
        }
        self.moment
    }

    /// Waits for a datagram, unless one is there.
    fn recv(&mut self, buf: &mut [u8]) -> Result<Option<Arrival>, WireFault> {
        if self.is_passing {
            self.is_passing = false;
            return Ok(None);
        }
        match self.take_or_wait(buf) {
            Ok(came) => Ok(came),
            Err(_) => {
                self.is_disturbed = true;
                self.faults += 1;
                Err(WireFault)
            }
        }
    }

    /// Sends to the group, or to one neighbour. Over a device that can't be used now nothing is
    /// sent.
    fn send(&mut self, target: &Target, octets: &[u8]) -> Result<(), WireFault> {
        if self.send_over(target, octets) {
            return Ok(());
        }
        self.is_disturbed = true;
        self.faults += 1;
        Err(WireFault)
    }

    fn faults(&self) -> u64 {
        self.faults
    }
}
