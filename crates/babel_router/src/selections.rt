//! The selected routes, as they are printed.

use crate::limits::MAX_PREFIXES;
use babel_speaker::Speaker;
use babel_state::Selected;
use babel_text::LineFault;
use babel_value::{Addr, Prefix};
use std::alloc::{AllocError, Global};
use std::io::{self, Write};

/// How selected routes are written.
#[derive(Clone, Copy)]
pub(crate) enum RouteForm {
    /// For people and logs.
    Text,
    /// As commands for `ip -force -batch -`.
    Commands,
}

/// How selected routes are written, and the names of the interfaces.
#[derive(Clone, Copy)]
pub(crate) struct RouteLines<'a> {
    pub(crate) form: RouteForm,
    /// By the numbers of the interfaces.
    pub(crate) names: &'a [&'a str],
}

/// For people and logs, with the numbers of the interfaces in place of names.
pub(crate) const NUMBERED: RouteLines<'static> = RouteLines {
    form: RouteForm::Text,
    names: &["0", "1", "2", "3", "4", "5", "6", "7"],
};

/// The metric of all routes that are given to the kernel: the kernel's own routes of a device are
/// preferred to them.
const KERNEL_METRIC: u16 = 1024;

/// The name of an interface.
fn name_of<'a>(names: &[&'a str], iface: u8) -> &'a str {
    match names.get(usize::from(iface)) {
        Some(name) => name,
        None => "?",
    }
}

/// Writes the selected route of a prefix for people, to the end of the line.
fn write_route<W: Write>(
    names: &[&str],
    prefix: &Prefix,
    route: &Option<Selected>,
    out: &mut W,
) -> io::Result<()> {
    let Some(route) = route else {
        return writeln!(out, "{prefix} none");
    };
    let name = name_of(names, route.peer.iface);
    writeln!(
        out,
        "{prefix} via {name} {} metric {} router {} seqno {}",
        route.peer.addr, route.metric, route.router, route.distance.seqno
    )
}

/// Writes the command that gives the kernel what is to be had of the prefix.
fn write_command<W: Write>(
    names: &[&str],
    prefix: &Prefix,
    way: &Way,
    out: &mut W,
) -> io::Result<()> {
    match way {
        Way::Nothing => writeln!(out, "route del {prefix} proto babel metric {KERNEL_METRIC}"),
        Way::Unreachable => writeln!(
            out,
            "route replace unreachable {prefix} proto babel metric {KERNEL_METRIC}"
        ),
        Way::Route(route) => write_replacement(names, prefix, route, out),
    }
}

/// Writes the command that gives the kernel a route.
fn write_replacement<W: Write>(
    names: &[&str],
    prefix: &Prefix,
    route: &Selected,
    out: &mut W,
) -> io::Result<()> {
    let name = name_of(names, route.peer.iface);
    let next_hop = route.next_hop;
    // An IPv4 prefix over a next hop of IPv6 needs the family named (RFC 9229); the others take it
    // too. A neighbour's IPv4 address may be outside of the device's networks, as on links where
    // each address is a /32. The kernel refuses it without `onlink`.
    let (family, link) = match next_hop {
        Addr::V4(_) => ("inet", " onlink"),
        Addr::V6(_) => ("inet6", ""),
    };
    writeln!(
        out,
        "route replace {prefix} via {family} {next_hop} dev {name}{link} proto babel metric {KERNEL_METRIC}"
    )
}

impl RouteLines<'_> {
    /// Whether two ways are written alike.
    fn are_same(&self, one: &Way, other: &Way) -> bool {
        match (one, other) {
            (Way::Route(one), Way::Route(other)) => self.are_same_routes(one, other),
            (Way::Unreachable, Way::Unreachable) | (Way::Nothing, Way::Nothing) => true,
            _ => false,
        }
    }

    fn are_same_routes(&self, one: &Selected, other: &Selected) -> bool {
        match self.form {
            RouteForm::Commands => {
                one.peer.iface == other.peer.iface && one.next_hop == other.next_hop
            }
            RouteForm::Text => {
                one.peer == other.peer
                    && one.metric == other.metric
                    && one.router == other.router
                    && one.distance.seqno == other.distance.seqno
            }
        }
    }

    /// Writes that there is another way to a prefix.
    fn write_change<W: Write>(
        &self,
        moment: u64,
        prefix: &Prefix,
        way: &Way,
        out: &mut W,
    ) -> io::Result<()> {
        match self.form {
            RouteForm::Commands => write_command(self.names, prefix, way, out),
            RouteForm::Text => {
                write!(out, "{moment} select ")?;
                write_route(self.names, prefix, &way.route(), out)
            }
        }
    }

    /// The way to a prefix now that had a selected route before.
    fn way_now(&self, speaker: &Speaker, prefix: &Prefix, near: &mut usize) -> Way {
        match (speaker.selected_near(prefix, near), self.form) {
            (Some(route), _) => Way::Route(route),
            (None, RouteForm::Commands) if speaker.entry(prefix, 0).is_some() => Way::Unreachable,
            (None, _) => Way::Nothing,
        }
    }

    /// Whether a selected route of the prefix is written.
    fn has(&self, prefix: &Prefix) -> bool {
        match self.form {
            RouteForm::Commands => is_routable(prefix),
            RouteForm::Text => true,
        }
    }
}

/// What is to be had of a prefix.
#[derive(Clone, Copy)]
enum Way {
    /// Nothing. So it is printed only while changes are written.
    Nothing,
    /// Its route was lost, and the speaker has others that can't be selected, or retracted ones.
    /// As long as it has them, nothing for the prefix may go by the route of a shorter one (RFC
    /// 8966, section 3.5.4). The kernel has a route that says so; for people it is as nothing.
    Unreachable,
    /// The selected route.
    Route(Selected),
}

impl Way {
    fn route(&self) -> Option<Selected> {
        match self {
            Way::Route(route) => Some(*route),
            Way::Nothing | Way::Unreachable => None,
        }
    }
}

/// Whether a router may route the prefix. Within a machine, or on a link, are the prefixes of
/// loopback, link-local and multicast addresses, and that of no address (RFC 6890).
fn is_routable(prefix: &Prefix) -> bool {
    let length = prefix.length();
    match prefix.addr() {
        Addr::V4(octets) => is_routable_ipv4(u32::from_be_bytes(octets), length),
        Addr::V6(octets) => is_routable_ipv6(u128::from_be_bytes(octets), length),
    }
}

fn is_routable_ipv4(number: u32, length: u8) -> bool {
    let first = number >> 24;
    let is_of_this_machine = length >= 8 && (first == 0 || first == 127);
    let is_multicast = length >= 3 && first >= 224;
    !(is_of_this_machine || is_multicast)
}

fn is_routable_ipv6(number: u128, length: u8) -> bool {
    let is_of_this_machine = length == 128 && number <= 1;
    let is_link_local = length >= 10 && number >> 118 == 0x3fa;
    let is_multicast = length >= 8 && number >> 120 == 0xff;
    !(is_of_this_machine || is_link_local || is_multicast)
}

/// A prefix, and what was printed of it last.
#[derive(Clone, Copy)]
struct PrintedRoute {
    prefix: Prefix,
    way: Way,
    /// Whether it is printed again, whatever is selected.
    is_doubtful: bool,
}

/// The prefixes of which a selected route was printed, in ascending order.
#[derive(Drop)]
pub(crate) struct Selections<'a> {
    lines: RouteLines<'a>,
    printed: Vec<PrintedRoute>,
    /// The count of the speaker's routes when they were looked at last. They are looked at again
    /// only if it is another, or at `next_look`.
    version: Option<u64>,
    /// When they are looked at again, in centiseconds: the count doesn't grow when the last entry
    /// of an unreachable prefix goes.
    next_look: u64,
}

/// After how long the routes are looked at again while a prefix is unreachable, in centiseconds.
const LOOK_AGAIN: u64 = 100;

impl<'a> Selections<'a> {
    /// No prefix, with the room for all.
    ///
    /// # Errors
    ///
    /// An allocation failed.
    pub(crate) fn new(alloc: Global, lines: RouteLines<'a>) -> Result<Selections<'a>, AllocError> {
        let printed = Vec::with_capacity(alloc, MAX_PREFIXES)?;
        Ok(Selections {
            lines,
            printed,
            version: None,
            next_look: u64::MAX,
        })
    }

    /// Writes a line for each prefix whose selected route is another than the one that was printed
    /// last, in the order of the prefixes, and flushes if there was one.
    ///
    /// # Errors
    ///
    /// L7 if writing fails, L8 if an allocation fails.
    pub(crate) fn write_changes<W: Write>(
        &mut self,
        speaker: &Speaker,
        moment: u64,
        out: &mut W,
    ) -> Result<(), LineFault> {
        let version = speaker.routes_version();
        let is_known = self.version == Some(version) && version < u64::MAX;
        if is_known && moment < self.next_look {
            return Ok(());
        }
        add_new(&self.lines, &mut self.printed, speaker)?;
        write_changed(&self.lines, &mut self.printed, speaker, moment, out).map_err(
            LineFault::of_writing,
        )?;
        self.printed
            .retain(|printed| !matches!(&printed.way, Way::Nothing));
        self.version = Some(version);
        self.next_look = if self.has_unreachable() {
            moment.saturating_add(LOOK_AGAIN)
        } else {
            u64::MAX
        };
        Ok(())
    }

    fn has_unreachable(&self) -> bool {
        for printed in &self.printed {
            if let Way::Unreachable = printed.way {
                return true;
            }
        }
        false
    }

    /// The reader of the lines may have lost the routes over an interface: what is selected of
    /// their prefixes is printed again, also if it is none by then.
    pub(crate) fn doubt(&mut self, iface: u8) {
        for printed in self.printed.iter_mut() {
            if let Way::Route(route) = printed.way {
                if route.peer.iface == iface {
                    printed.is_doubtful = true;
                }
            }
        }
        self.version = None;
    }

    /// The speaker was made again, and counts the changes of its routes from the beginning.
    pub(crate) fn note_restart(&mut self) {
        self.version = None;
    }

    /// Writes a line for each prefix that takes away what was given to the kernel.
    ///
    /// # Errors
    ///
    /// Writing fails.
    pub(crate) fn write_removals<W: Write>(&self, out: &mut W) -> io::Result<()> {
        for printed in &self.printed {
            write_command(self.lines.names, &printed.prefix, &Way::Nothing, out)?;
        }
        Ok(())
    }

    /// Writes the selected route of each prefix to which the speaker has a route, selected or not,
    /// for people.
    ///
    /// # Errors
    ///
    /// Writing fails.
    pub(crate) fn write_table<W: Write>(&self, speaker: &Speaker, out: &mut W) -> io::Result<()> {
        let mut after: Option<Prefix> = None;
        for _ in 0..MAX_PREFIXES {
            let Some(prefix) = speaker.next_prefix(after.as_ref()) else {
                return Ok(());
            };
            write!(out, "table ")?;
            write_route(self.lines.names, &prefix, &speaker.selected(&prefix), out)?;
            after = Some(prefix);
        }
        Ok(())
    }
}

/// Adds the prefixes that have a selected route now: one walk over both lists.
fn add_new(
    lines: &RouteLines<'_>,
    printed: &mut Vec<PrintedRoute>,
    speaker: &Speaker,
) -> Result<(), AllocError> {
    let mut index = 0;
    for place in 0..MAX_PREFIXES {
        let Some((prefix, _)) = speaker.selection_at(place) else {
            return Ok(());
        };
        if lines.has(&prefix) {
            index = index_near(printed, index, &prefix);
            insert_near(printed, index, prefix)?;
        }
    }
    Ok(())
}

/// The index of the first of the prefixes, from the index on, that isn't lesser than this one.
fn index_near(printed: &[PrintedRoute], index: usize, prefix: &Prefix) -> usize {
    for place in index..printed.len() {
        match printed.get(place) {
            Some(known) if known.prefix.cmp(prefix).is_lt() => {}
            _ => return place,
        }
    }
    printed.len()
}

/// Inserts the prefix at the index, unless it is there.
fn insert_near(
    printed: &mut Vec<PrintedRoute>,
    index: usize,
    prefix: Prefix,
) -> Result<(), AllocError> {
    if let Some(known) = printed.get(index) {
        if known.prefix == prefix {
            return Ok(());
        }
    }
    let new = PrintedRoute {
        prefix,
        way: Way::Nothing,
        is_doubtful: false,
    };
    printed.insert(index.min(printed.len()), new)?;
    Ok(())
}

/// Writes a line for each of the prefixes whose selected route is another one, or that is doubtful,
/// and flushes if there was one.
fn write_changed<W: Write>(
    lines: &RouteLines<'_>,
    printed: &mut [PrintedRoute],
    speaker: &Speaker,
    moment: u64,
    out: &mut W,
) -> io::Result<()> {
    let mut has_changed = false;
    let mut near = 0;
    for entry in printed.iter_mut() {
        let way = lines.way_now(speaker, &entry.prefix, &mut near);
        if entry.is_doubtful || !lines.are_same(&way, &entry.way) {
            lines.write_change(moment, &entry.prefix, &way, out)?;
            entry.way = way;
            entry.is_doubtful = false;
            has_changed = true;
        }
    }
    if has_changed {
        return out.flush();
    }
    Ok(())
}
