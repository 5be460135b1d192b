//! The lines of the protocol, as babeld writes them.

ghost use Rattle.std.specs.Prelude.{◌≡◌, ◌++◌, Some, OnOk};
ghost use Rattle.std.specs.String.{string_bytes};
ghost use Rattle.babel_control.specs.Lines.{cost_fields, metric_fields, route_fields, link_fields, state_field, ipv6_field, ipv4_field, event_text, name_at, greeting, interface_line, neighbour_line, xroute_line, route_line, neighbour_expiry_line, route_expiry_line};

use crate::texts::{AddrText, PrefixText, RouterText, all_sources};
use crate::{DeviceAddresses, DeviceView, NeighbourRow, RouteRow};
use babel_value::{Peer, Prefix, RouterId};
use std::alloc::AllocError;
use std::fmt::{self, Write};
use std::net::{Ipv4Addr, Ipv6Addr};

/// What a line means for the thing that it names.
#[derive(Clone, Copy)]
pub(crate) enum Event {
    /// It is there.
    Add,
    /// It is another now.
    Change,
    /// It is gone.
    Flush,
}

impl fmt::Display for Event {
    ghost output = { λ event. Some (event_text event) };

    fn fmt<W: fmt::Write>(&self, f: &mut fmt::Formatter<W>) -> fmt::Result {
        f.write_str(match self {
            Event::Add => "add",
            Event::Change => "change",
            Event::Flush => "flush",
        })
    }
}

/// The version of the program.
pub const VERSION: &str = "0.10.0";

/// The name of the interface's device.
fn name_of<'v>(devices: &[DeviceView<'v>], iface: u8) -> &'v str
    ensures { result.now ≡ name_at devices.now iface }
{
    match devices.get(usize::from(iface)) {
        Some(device) => device.name,
        None => "?",
    }
}

/// The lines that a client of this version of the program gets first.
pub(crate) fn push_greeting(
    out: &mut String,
    version: &str,
    host: &str,
    router: RouterId,
) -> Result<(), AllocError>
    ensures { OnOk result (string_bytes out.new ≡ string_bytes out.old ++ greeting version.now host.now router) }
{
    let router = RouterText(router);
    write!(
        out,
        "BABEL 1.0\nversion babel-{version}\nhost {host}\nmy-id {router}\nok\n"
    )
}

/// The IPv6 address of a device, if it has one.
#[derive(Clone, Copy)]
struct Ipv6Field<'t>(&'t Option<[u8; 16]>);

impl fmt::Display for Ipv6Field<'_> {
    ghost output = { λ field. Some (ipv6_field field.0.now) };

    fn fmt<W: fmt::Write>(&self, f: &mut fmt::Formatter<W>) -> fmt::Result {
        match self.0 {
            Some(octets) => {
                let addr = Ipv6Addr::from_octets(*octets);
                write!(f, " ipv6 {addr}")
            }
            None => Ok(()),
        }
    }
}

/// The IPv4 address of a device, if it has one.
#[derive(Clone, Copy)]
struct Ipv4Field<'t>(&'t Option<[u8; 4]>);

impl fmt::Display for Ipv4Field<'_> {
    ghost output = { λ field. Some (ipv4_field field.0.now) };

    fn fmt<W: fmt::Write>(&self, f: &mut fmt::Formatter<W>) -> fmt::Result {
        match self.0 {
            Some(octets) => {
                let addr = Ipv4Addr::from_octets(*octets);
                write!(f, " ipv4 {addr}")
            }
            None => Ok(()),
        }
    }
}

/// Whether a device is up, and its addresses.
#[derive(Clone, Copy)]
struct StateField<'t>(&'t Option<DeviceAddresses>);

impl fmt::Display for StateField<'_> {
    ghost output = { λ field. Some (state_field field.0.now) };

    fn fmt<W: fmt::Write>(&self, f: &mut fmt::Formatter<W>) -> fmt::Result {
        match self.0 {
            Some(addresses) => {
                let ipv6 = Ipv6Field(&addresses.ipv6);
                let ipv4 = Ipv4Field(&addresses.ipv4);
                write!(f, " up true{ipv6}{ipv4}")
            }
            None => f.write_str(" up false"),
        }
    }
}

/// The line of a device.
pub(crate) fn push_interface(
    out: &mut String,
    event: Event,
    device: &DeviceView<'_>,
) -> Result<(), AllocError>
    ensures { OnOk result (string_bytes out.new ≡ string_bytes out.old ++ interface_line event device.now) }
{
    let name = device.name;
    let state = StateField(&device.addresses);
    writeln!(out, "{event} interface {name}{state}")
}

/// The line of a neighbour with this identifier.
pub(crate) fn push_neighbour(
    out: &mut String,
    event: Event,
    id: u64,
    row: &NeighbourRow,
    devices: &[DeviceView<'_>],
) -> Result<(), AllocError>
    ensures { OnOk result (string_bytes out.new ≡ string_bytes out.old ++ neighbour_line event id row.now devices.now) }
{
    let address = AddrText(&row.peer.addr);
    let name = name_of(devices, row.peer.iface);
    let costs = CostFields(row);
    writeln!(
        out,
        "{event} neighbour {id:x} address {address} if {name}{costs}"
    )
}

/// What of the last Hellos came, and the costs.
#[derive(Clone, Copy)]
struct CostFields<'t>(&'t NeighbourRow);

impl fmt::Display for CostFields<'_> {
    ghost output = { λ fields. Some (cost_fields fields.0.now) };

    fn fmt<W: fmt::Write>(&self, f: &mut fmt::Formatter<W>) -> fmt::Result {
        let reach = self.0.reach;
        let ureach = self.0.ureach;
        let rxcost = self.0.rxcost;
        let txcost = self.0.txcost;
        let cost = self.0.cost;
        write!(
            f,
            " reach {reach:04x} ureach {ureach:04x} rxcost {rxcost} txcost {txcost} cost {cost}"
        )
    }
}

/// The line of a prefix that the speaker announces.
pub(crate) fn push_xroute(out: &mut String, event: Event, prefix: &Prefix) -> Result<(), AllocError>
    ensures { OnOk result (string_bytes out.new ≡ string_bytes out.old ++ xroute_line event prefix.now) }
{
    let from = all_sources(prefix);
    let prefix = PrefixText(prefix);
    writeln!(
        out,
        "{event} xroute {prefix}-{from} prefix {prefix} from {from} metric 0"
    )
}

/// The line of a route with this identifier.
pub(crate) fn push_route(
    out: &mut String,
    event: Event,
    id: u64,
    row: &RouteRow,
    devices: &[DeviceView<'_>],
) -> Result<(), AllocError>
    ensures { OnOk result (string_bytes out.new ≡ string_bytes out.old ++ route_line event id row.now devices.now) }
{
    let fields = RouteFields(row);
    let link = LinkFields {
        peer: &row.peer,
        devices,
    };
    writeln!(out, "{event} route {id:x}{fields}{link}")
}

/// What a route advertises, whether it is selected, and its metrics.
#[derive(Clone, Copy)]
struct RouteFields<'t>(&'t RouteRow);

impl fmt::Display for RouteFields<'_> {
    ghost output = { λ fields. Some (route_fields fields.0.now) };

    #[tactic(auto, unfolding(crate::specs::Lines::route_fields))]
    fn fmt<W: fmt::Write>(&self, f: &mut fmt::Formatter<W>) -> fmt::Result {
        let from = all_sources(&self.0.prefix);
        let prefix = PrefixText(&self.0.prefix);
        let installed = self.0.installed;
        let metrics = MetricFields(self.0);
        write!(
            f,
            " prefix {prefix} from {from} installed {installed}{metrics}"
        )
    }
}

/// By which neighbour and device a route goes.
#[derive(Clone, Copy)]
struct LinkFields<'t> {
    peer: &'t Peer,
    devices: &'t [DeviceView<'t>],
}

impl fmt::Display for LinkFields<'_> {
    ghost output = { λ fields. Some (link_fields fields.peer.now fields.devices.now) };

    #[tactic(auto, unfolding(crate::specs::Lines::link_fields))]
    fn fmt<W: fmt::Write>(&self, f: &mut fmt::Formatter<W>) -> fmt::Result {
        let via = AddrText(&self.peer.addr);
        let name = name_of(self.devices, self.peer.iface);
        write!(f, " via {via} if {name}")
    }
}

/// The router-id and the metrics of a route.
#[derive(Clone, Copy)]
struct MetricFields<'t>(&'t RouteRow);

impl fmt::Display for MetricFields<'_> {
    ghost output = { λ fields. Some (metric_fields fields.0.now) };

    fn fmt<W: fmt::Write>(&self, f: &mut fmt::Formatter<W>) -> fmt::Result {
        let router = RouterText(self.0.router);
        let metric = self.0.metric;
        let advertised = self.0.advertised;
        write!(f, " id {router} metric {metric} refmetric {advertised}")
    }
}

/// The line of when the next Hello of a neighbour is missed: in so many centiseconds.
pub(crate) fn push_neighbour_expiry(
    out: &mut String,
    peer: &Peer,
    rest: u64,
    devices: &[DeviceView<'_>],
) -> Result<(), AllocError>
    ensures { OnOk result (string_bytes out.new ≡ string_bytes out.old ++ neighbour_expiry_line peer.now rest devices.now) }
{
    let address = AddrText(&peer.addr);
    let name = name_of(devices, peer.iface);
    writeln!(
        out,
        "expires neighbour address {address} if {name} in {rest}"
    )
}

/// The line of when a route is too old: in so many centiseconds.
pub(crate) fn push_route_expiry(
    out: &mut String,
    prefix: &Prefix,
    peer: &Peer,
    rest: u64,
    devices: &[DeviceView<'_>],
) -> Result<(), AllocError>
    ensures { OnOk result (string_bytes out.new ≡ string_bytes out.old ++ route_expiry_line prefix.now peer.now rest devices.now) }
{
    let prefix = PrefixText(prefix);
    let via = AddrText(&peer.addr);
    let name = name_of(devices, peer.iface);
    writeln!(
        out,
        "expires route prefix {prefix} via {via} if {name} in {rest}"
    )
}
