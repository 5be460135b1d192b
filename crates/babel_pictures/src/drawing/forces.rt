//! The places of a network without a shape: its links pull nodes together, and all others push each
//! other away (T. Fruchterman and E. Reingold, 1991). The same network gets the same places.

use crate::drawing::numbers::{Place, fraction, number, on_circle, smaller};
use crate::drawing::pictures::DrawnLink;
use std::alloc::{AllocError, Global};

/// About how many pairs of nodes are looked at.
const WORK: usize = 40_000_000;

/// The most rounds.
const MAX_ROUNDS: usize = 500;

/// Places the nodes. Two of them that are linked are about a step from each other.
pub(crate) fn place_by_forces(
    alloc: Global,
    count: usize,
    links: &[DrawnLink],
    step: Place,
) -> Result<Vec<Place>, AllocError> {
    let mut places = begin(alloc, count)?;
    let mut ways = vec![in alloc; Place::new(0.0, 0.0); count]?;
    let rounds = (WORK / count.saturating_mul(count).max(1)).min(MAX_ROUNDS);
    for round in 0..rounds {
        push_all(&places, &mut ways);
        pull_linked(&places, links, &mut ways);
        let rest = 1.0 - number(round) / number(rounds);
        go(&mut places, &ways, 0.3 * rest + 0.01);
    }
    for place in places.iter_mut() {
        *place = Place::new(place.x * step.x, place.y * step.x * 0.8);
    }
    Ok(places)
}

/// A spiral, so that no two nodes are at one place and no side is like another.
fn begin(alloc: Global, count: usize) -> Result<Vec<Place>, AllocError> {
    let mut places = Vec::with_capacity(alloc, count)?;
    for node in 0..count {
        let radius = 0.6 * (number(node) + 0.5).sqrt();
        // The golden section of a turn.
        let part = fraction(0.381966 * number(node));
        places.push(on_circle(part).times(radius))?;
    }
    Ok(places)
}

/// How each node is pushed away by all others.
fn push_all(places: &[Place], ways: &mut [Place]) {
    for (way, place) in ways.iter_mut().zip(places.iter()) {
        *way = push_one(*place, places);
    }
}

fn push_one(place: Place, places: &[Place]) -> Place {
    let mut way = Place::new(0.0, 0.0);
    for other in places {
        let from = place.minus(*other);
        let length = from.length();
        // Nodes that are far away don't push, or parts would drift apart.
        if length < 4.0 {
            way = way.plus(from.times(1.0 / (length * length)));
        }
    }
    way
}

/// How the nodes of each link are pulled together.
fn pull_linked(places: &[Place], links: &[DrawnLink], ways: &mut [Place]) {
    for link in links {
        if let (Some(a), Some(b)) = (places.get(link.a), places.get(link.b)) {
            let to = b.minus(*a);
            let pull = to.times(to.length());
            add(ways, link.a, pull);
            add(ways, link.b, pull.times(0.0 - 1.0));
        }
    }
}

fn add(ways: &mut [Place], node: usize, pull: Place) {
    if let Some(way) = ways.get_mut(node) {
        *way = way.plus(pull);
    }
}

/// Moves each node its way, at most so far.
fn go(places: &mut [Place], ways: &[Place], most: f64) {
    for (place, way) in places.iter_mut().zip(ways.iter()) {
        let length = way.length();
        *place = place.plus(way.times(smaller(length, most) / length));
    }
}
