//! An example of a program that embeds speakers: two of them over a wire in memory, without sockets
//! and without a clock. docs/LIBRARY.md explains it.
#![tactic(auto)]

mod memory_wire;

use memory_wire::MemoryWire;
use raibenku::{Addr, Prefix, Selected, Speaker, drive, parse_prefix, read_config};
use std::alloc::Global;
use std::io::{self, ErrorKind, Write};

const A: &str = "router-id = \"0000000000000001\"
prefixes = [\"10.1.0.0/16\"]
[[interface]]
transport = \"ipv4\"
ipv4 = \"192.168.0.1/24\"
hello = 20
";

const B: &str = "router-id = \"0000000000000002\"
[[interface]]
transport = \"ipv4\"
ipv4 = \"192.168.0.2/24\"
hello = 20
";

/// How many turns both speakers have.
const TURNS: u64 = 200;

/// The turn after which the wire is cut.
const LAST_WHOLE: u64 = 100;

fn main(rt: HostRuntime) -> io::Result<()> {
    let mut out = rt.stdout();
    run(rt.alloc(), &mut out)
}

/// Makes both speakers, and gives them their turns.
fn run<W: Write>(alloc: Global, out: &mut W) -> io::Result<()> {
    let Some(prefix) = parse_prefix("10.1.0.0/16") else {
        return Err(io::Error::from(ErrorKind::InvalidInput));
    };
    let mut a = End::new(alloc, A, Addr::V4([192, 168, 0, 2]))?;
    let mut b = End::new(alloc, B, Addr::V4([192, 168, 0, 1]))?;
    take_turns(&mut a, &mut b, &prefix, out)
}

/// A speaker, and its end of the wire.
#[derive(Drop)]
struct End {
    speaker: Speaker,
    wire: MemoryWire,
}

impl End {
    /// A speaker of a configuration, over a wire whose other end has this address.
    fn new(alloc: Global, text: &str, peer: Addr) -> io::Result<End> {
        let config = match read_config(alloc, text.as_bytes()) {
            Ok(config) => config,
            Err(_) => return Err(io::Error::from(ErrorKind::InvalidInput)),
        };
        match Speaker::new(alloc, config) {
            Ok(speaker) => Ok(End {
                speaker,
                wire: MemoryWire::new(alloc, peer),
            }),
            Err(_) => Err(io::Error::from(ErrorKind::InvalidInput)),
        }
    }
}

/// Gives both speakers their turns. A line is written whenever the selected route of B changes.
fn take_turns<W: Write>(a: &mut End, b: &mut End, prefix: &Prefix, out: &mut W) -> io::Result<()> {
    let mut buf = [0u8; 1500];
    let mut last = None;
    for turn in 0..TURNS {
        take_turn(a, &mut buf);
        take_turn(b, &mut buf);
        if turn <= LAST_WHOLE {
            a.wire.pass_to(&mut b.wire)?;
            b.wire.pass_to(&mut a.wire)?;
        }
        let selected = b.speaker.selected(prefix);
        if selected.is_some() != last.is_some() {
            write_selected(turn, prefix, &selected, out)?;
        }
        last = selected;
    }
    Ok(())
}

/// A turn of one speaker. The wire counts its failures from 0, and there is at most one in a turn.
fn take_turn(end: &mut End, buf: &mut [u8]) {
    if end.wire.has_failed() {
        return;
    }
    let _report = drive(&mut end.speaker, &mut end.wire, buf, 1);
}

fn write_selected<W: Write>(
    turn: u64,
    prefix: &Prefix,
    selected: &Option<Selected>,
    out: &mut W,
) -> io::Result<()> {
    match selected {
        Some(route) => {
            let hop = route.next_hop;
            let metric = route.metric;
            writeln!(out, "{turn} select {prefix} via {hop} metric {metric}")
        }
        None => writeln!(out, "{turn} select {prefix} none"),
    }
}
