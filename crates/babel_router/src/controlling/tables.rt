//! The neighbours, announced prefixes and routes of a speaker.

use crate::controlling::IgnoredUpdates;
use crate::controlling::reasons::push_routes;
use crate::controlling::requests::push_requests;
use babel_control::{Expiries, Installed, NeighbourRow, RouteRow, Rows, Tables};
use babel_link::History;
use babel_speaker::{Neighbour, Speaker};
use babel_value::{Peer, Prefix};
use std::alloc::{AllocError, Global};

/// How many prefixes a speaker may have a route to, and how many routes to one of them: more than
/// it has room for.
const MAX_STEPS: usize = 1 << 16;

/// The tables of a speaker, and the Updates that it has not stored.
#[derive(Clone, Copy)]
pub struct SpeakerTables<'s> {
    /// The speaker.
    pub speaker: &'s Speaker,
    /// What is known of such Updates.
    pub ignored: &'s IgnoredUpdates,
    /// The moment, in centiseconds.
    pub now: u64,
}

impl Tables for SpeakerTables<'_> {
    fn rows(&self, alloc: Global) -> Result<Rows, AllocError> {
        let mut rows = Rows {
            neighbours: Vec::new(alloc),
            prefixes: Vec::new(alloc),
            routes: Vec::new(alloc),
        };
        push_rows(&mut rows, self.speaker)?;
        Ok(rows)
    }

    fn expiries(&self, alloc: Global) -> Result<Expiries, AllocError> {
        let mut expiries = Expiries {
            neighbours: Vec::new(alloc),
            routes: Vec::new(alloc),
        };
        push_neighbour_expiries(&mut expiries.neighbours, self.speaker)?;
        push_route_expiries(&mut expiries.routes, self.speaker)?;
        Ok(expiries)
    }

    fn push_why(&self, prefix: &Prefix, out: &mut String) -> Result<(), AllocError> {
        push_routes(self.speaker, prefix, out)?;
        push_requests(self.speaker, prefix, self.now, out)?;
        self.ignored.push_to(prefix, self.now, out)
    }
}

/// The history as babeld writes it: the newest Hello in the highest bit.
fn reach_of(history: &Option<History>) -> u16 {
    match history {
        Some(history) => history.marks.bits().reverse_bits(),
        None => 0,
    }
}

fn neighbour_row(neighbour: &Neighbour) -> NeighbourRow {
    NeighbourRow {
        peer: neighbour.peer,
        reach: reach_of(&neighbour.link.multicast),
        ureach: reach_of(&neighbour.link.unicast),
        rxcost: neighbour.rxcost,
        txcost: neighbour.link.txcost,
        cost: neighbour.cost,
    }
}

fn push_rows(rows: &mut Rows, speaker: &Speaker) -> Result<(), AllocError> {
    push_neighbours(&mut rows.neighbours, speaker)?;
    push_prefixes(&mut rows.prefixes, speaker)?;
    push_all_routes(&mut rows.routes, speaker)
}

fn push_neighbours(rows: &mut Vec<NeighbourRow>, speaker: &Speaker) -> Result<(), AllocError> {
    for place in 0..speaker.neighbour_count() {
        if let Some(neighbour) = speaker.neighbour(place) {
            rows.push(neighbour_row(&neighbour))?;
        }
    }
    Ok(())
}

fn push_prefixes(prefixes: &mut Vec<Prefix>, speaker: &Speaker) -> Result<(), AllocError> {
    for prefix in speaker.prefixes() {
        prefixes.push(prefix)?;
    }
    Ok(())
}

/// Adds the routes, ascending by prefix, then neighbour.
fn push_all_routes(rows: &mut Vec<RouteRow>, speaker: &Speaker) -> Result<(), AllocError> {
    let mut after: Option<Prefix> = None;
    for _ in 0..MAX_STEPS {
        let Some(prefix) = speaker.next_prefix(after.as_ref()) else {
            return Ok(());
        };
        push_routes_to(rows, speaker, &prefix)?;
        after = Some(prefix);
    }
    Ok(())
}

/// Adds the routes of a prefix.
fn push_routes_to(
    rows: &mut Vec<RouteRow>,
    speaker: &Speaker,
    prefix: &Prefix,
) -> Result<(), AllocError> {
    let selected = speaker.selected(prefix);
    for index in 0..MAX_STEPS {
        let Some((peer, entry, cost)) = speaker.entry(prefix, index) else {
            return Ok(());
        };
        let installed = match &selected {
            Some(route) if route.peer == peer => Installed::Yes,
            _ => Installed::No,
        };
        let advertised = entry.distance.metric;
        rows.push(RouteRow {
            prefix: *prefix,
            peer,
            installed,
            router: entry.router,
            metric: advertised.add(cost),
            advertised,
        })?;
    }
    Ok(())
}

/// Adds when the next Hello of each neighbour is missed.
fn push_neighbour_expiries(
    expiries: &mut Vec<(Peer, Option<u64>)>,
    speaker: &Speaker,
) -> Result<(), AllocError> {
    for place in 0..speaker.neighbour_count() {
        if let Some(neighbour) = speaker.neighbour(place) {
            expiries.push((neighbour.peer, due_of(&neighbour)))?;
        }
    }
    Ok(())
}

/// Adds when each route is too old, ascending by prefix, then neighbour.
fn push_route_expiries(
    expiries: &mut Vec<(Prefix, Peer, u64)>,
    speaker: &Speaker,
) -> Result<(), AllocError> {
    let mut after: Option<Prefix> = None;
    for _ in 0..MAX_STEPS {
        let Some(prefix) = speaker.next_prefix(after.as_ref()) else {
            return Ok(());
        };
        push_expiries_of(expiries, speaker, &prefix)?;
        after = Some(prefix);
    }
    Ok(())
}

/// When a multicast Hello of the neighbour is missed, or else a unicast one.
fn due_of(neighbour: &Neighbour) -> Option<u64> {
    match due_in(&neighbour.link.multicast) {
        Some(due) => Some(due),
        None => due_in(&neighbour.link.unicast),
    }
}

fn due_in(history: &Option<History>) -> Option<u64> {
    let timer = history.as_ref()?.timer?;
    Some(timer.due)
}

fn push_expiries_of(
    expiries: &mut Vec<(Prefix, Peer, u64)>,
    speaker: &Speaker,
    prefix: &Prefix,
) -> Result<(), AllocError> {
    for index in 0..MAX_STEPS {
        let Some((peer, entry, _)) = speaker.entry(prefix, index) else {
            return Ok(());
        };
        expiries.push((*prefix, peer, entry.deadline))?;
    }
    Ok(())
}
