//! The tables of a speaker, as the lines of the protocol show them.

ghost use Rattle.std.specs.Prelude.{◌≡◌, ◌++◌, ℕ, List, Some, OnOk};
ghost use Rattle.std.specs.String.{string_bytes};
ghost use Rattle.babel_control.specs.Lines.{installed_text, neighbour_line, route_line};
ghost use Rattle.babel_control.specs.declared.lines.Event.{Event as EventOf};
ghost use Rattle.babel_control.specs.declared.views.DeviceView.{DeviceView as DeviceOf};

use crate::DeviceView;
use crate::lines::{Event, push_neighbour, push_route};
use babel_value::{Metric, Peer, Prefix, RouterId};
use std::alloc::{AllocError, Global};
use std::cmp::Ordering;
use std::fmt;

/// A speaker, as far as the control socket shows it.
pub trait Tables {
    /// Its tables as of now.
    fn rows(&self, alloc: Global) -> Result<Rows, AllocError>;

    /// When each neighbour and route is given up if nothing more is heard.
    fn expiries(&self, alloc: Global) -> Result<Expiries, AllocError>;

    /// Adds a line for each route of the prefix: what was advertised, and whether it is used or why
    /// not.
    fn push_why(&self, prefix: &Prefix, out: &mut String) -> Result<(), AllocError>;
}

/// When neighbours and routes are given up if nothing more is heard.
#[derive(Drop)]
pub struct Expiries {
    /// The neighbours, in ascending order, each with the moment at which its next Hello is missed.
    /// `None`: its Hellos have no interval.
    pub neighbours: Vec<(Peer, Option<u64>)>,
    /// The routes, ascending by prefix, then neighbour, each with the moment at which it is too
    /// old.
    pub routes: Vec<(Prefix, Peer, u64)>,
}

/// The tables of a speaker.
#[derive(Drop)]
pub struct Rows {
    /// The neighbours, in ascending order.
    pub neighbours: Vec<NeighbourRow>,
    /// The prefixes that it announces, in ascending order.
    pub prefixes: Vec<Prefix>,
    /// The routes, ascending by prefix, then neighbour.
    pub routes: Vec<RouteRow>,
}

/// A thing of which there are many: a neighbour, or a route.
pub(crate) trait Row: Copy + PartialEq {
    /// Its line.
    ghost line: { Self → EventOf → ℕ → List DeviceOf → List ℕ };

    /// By what it is named.
    fn compare(&self, other: &Self) -> Ordering;

    /// Its line.
    fn push_line(
        &self,
        out: &mut String,
        event: Event,
        id: u64,
        devices: &[DeviceView<'_>],
    ) -> Result<(), AllocError>
        ensures { OnOk result (string_bytes out.new ≡ string_bytes out.old ++ line self.now event id devices.now) };
}

/// A neighbour.
#[derive(Clone, Copy, PartialEq, Eq)]
pub struct NeighbourRow {
    /// Its interface and address.
    pub peer: Peer,
    /// Which of the last 16 multicast Hellos came, the newest in the highest bit.
    pub reach: u16,
    /// The same of the unicast Hellos.
    pub ureach: u16,
    /// The cost of receiving from it.
    pub rxcost: Metric,
    /// The cost of sending to it.
    pub txcost: Metric,
    /// The cost of the link.
    pub cost: Metric,
}

impl Row for NeighbourRow {
    ghost line = { λ row event id devices. neighbour_line event id row devices };

    fn compare(&self, other: &NeighbourRow) -> Ordering {
        self.peer.cmp(&other.peer)
    }

    fn push_line(
        &self,
        out: &mut String,
        event: Event,
        id: u64,
        devices: &[DeviceView<'_>],
    ) -> Result<(), AllocError> {
        push_neighbour(out, event, id, self, devices)
    }
}

/// Whether a route is the selected one.
#[derive(Clone, Copy, PartialEq, Eq)]
pub enum Installed {
    /// It is.
    Yes,
    /// Another one is, or none.
    No,
}

impl fmt::Display for Installed {
    ghost output = { λ installed. Some (installed_text installed) };

    fn fmt<W: fmt::Write>(&self, f: &mut fmt::Formatter<W>) -> fmt::Result {
        f.write_str(match self {
            Installed::Yes => "yes",
            Installed::No => "no",
        })
    }
}

/// A route.
#[derive(Clone, Copy, PartialEq, Eq)]
pub struct RouteRow {
    /// Its prefix.
    pub prefix: Prefix,
    /// The neighbour that advertised it.
    pub peer: Peer,
    /// Whether it is selected.
    pub installed: Installed,
    /// The router that announces the prefix.
    pub router: RouterId,
    /// The metric over the link as of now.
    pub metric: Metric,
    /// The metric that the neighbour advertised.
    pub advertised: Metric,
}

impl Row for RouteRow {
    ghost line = { λ row event id devices. route_line event id row devices };

    fn compare(&self, other: &RouteRow) -> Ordering {
        match self.prefix.cmp(&other.prefix) {
            Ordering::Equal => self.peer.cmp(&other.peer),
            order => order,
        }
    }

    fn push_line(
        &self,
        out: &mut String,
        event: Event,
        id: u64,
        devices: &[DeviceView<'_>],
    ) -> Result<(), AllocError> {
        push_route(out, event, id, self, devices)
    }
}
