//! The events of a run as a scenario, which `babel net` replays.

use babel_machine::Event;
use babel_state::{Config, Interface};
use babel_value::Addr;
use std::io::{self, Write};

/// Writes the configurations of a network and its events as a file of a scenario.
///
/// # Errors
///
/// Those of `out`.
pub fn write_scenario<W: Write>(
    configs: &[Config],
    events: &[Event],
    out: &mut W,
) -> io::Result<()> {
    writeln!(out, "# The events of a run of babel simulate.\nevents = [")?;
    for event in events.iter() {
        write_event(event, out)?;
    }
    out.write_all(b"]\n")?;
    for config in configs.iter() {
        write_config(config, out)?;
    }
    Ok(())
}

fn write_event<W: Write>(event: &Event, out: &mut W) -> io::Result<()> {
    out.write_all(b"  \"")?;
    match *event {
        Event::Tick { node, now } => write!(out, "tick {node} {now}"),
        Event::Emit { node, now } => write!(out, "emit {node} {now}"),
        Event::Deliver {
            datagram,
            node,
            iface,
            now,
        } => write!(out, "deliver {datagram} {node} {iface} {now}"),
        Event::SetCost { node, iface, cost } => write!(out, "cost {node} {iface} {cost}"),
        Event::Raise { node } => write!(out, "raise {node}"),
        Event::RequestSeqnos { node, now } => write!(out, "request {node} {now}"),
        Event::LoseLinks { node, iface, now } => write!(out, "lose {node} {iface} {now}"),
        Event::GroupItems { node } => write!(out, "group {node}"),
        Event::Announce { node, prefix } => write!(out, "announce {node} {prefix}"),
        Event::Withdraw { node, prefix } => write!(out, "withdraw {node} {prefix}"),
        Event::Restart { node, now } => write!(out, "restart {node} {now}"),
    }?;
    out.write_all(b"\",\n")
}

fn write_config<W: Write>(config: &Config, out: &mut W) -> io::Result<()> {
    let router_id = u64::from_be_bytes(config.router_id);
    write!(
        out,
        "\n[[node]]\nrouter-id = \"{router_id:016x}\"\nprefixes = ["
    )?;
    let mut separator = "";
    for prefix in config.prefixes.iter() {
        write!(out, "{separator}\"{prefix}\"")?;
        separator = ", ";
    }
    out.write_all(b"]\n")?;
    for interface in config.interfaces.iter() {
        write_interface(interface, out)?;
    }
    Ok(())
}

fn write_interface<W: Write>(interface: &Interface, out: &mut W) -> io::Result<()> {
    writeln!(out, "[[node.interface]]\ntransport = \"ipv6\"")?;
    let ipv4 = interface.ipv4;
    if let Some(network) = ipv4 {
        let octets = network.0;
        let address = Addr::V4(octets);
        writeln!(out, "ipv4 = \"{address}/{}\"", network.1)?;
    }
    let ipv6 = interface.ipv6;
    if let Some(octets) = ipv6 {
        let address = Addr::V6(octets);
        writeln!(out, "ipv6 = \"{address}\"")?;
    }
    writeln!(
        out,
        "cost = {}\nhello = {}",
        interface.cost, interface.hello
    )
}
