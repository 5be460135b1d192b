//! The shortest ways of a network, by a plain search.

ghost use Rattle.std.specs.Prelude.{◌≡◌, ◌<◌, ◌+◌, ℕ, List, Bool, true, false, IfOk, map, length, vec_len, slice_get, slice_index, slice_set, IsTrue, Some};
ghost use Rattle.std.specs.List.{sum};
ghost use Rattle.babel_simulate.specs.Ways.{AreWays, AreShortest, IsShorter, IsSettled, AreSettled, AreLower, first_distance_at};
ghost use Rattle.babel_simulate.specs.declared.shortest.Edge.{Edge};
ghost use Rattle.babel_simulate.specs.declared.shortest.Search.{Search};
ghost use Rattle.babel_simulate.specs.declared.shortest.Search.TheVariants.{Done, GoesOn};

use std::alloc::{AllocError, Global};

/// The least sum of costs that is no metric any more (RFC 8966, section 3.5.2).
pub(crate) const INFINITY: u64 = 65535;

/// A link over which datagrams get, both ways.
#[derive(Clone, Copy)]
pub struct Edge {
    /// The number of the node at one end.
    pub a: usize,
    /// The number of the node at the other end.
    pub b: usize,
    /// What it costs to get over it.
    pub cost: u16,
}

/// Whether a search for shorter ways found one.
#[derive(Clone, Copy)]
pub(crate) enum Search {
    /// It did, so that there may be shorter ones.
    GoesOn,
    /// It didn't.
    Done,
}

/// The cost of a shortest way from each node to an origin. It is 65535 if there is no way that
/// costs less.
pub fn shortest_ways(
    alloc: Global,
    origins: &[bool],
    edges: &[Edge],
) -> Result<Vec<u64>, AllocError>
    ensures each { IfOk result (λ distances. vec_len distances ≡ length origins.now) }
    ensures ways { IfOk result (λ distances. AreWays origins.now edges.now distances.items) }
    ensures shortest { IfOk result (λ distances. AreShortest origins.now edges.now distances.items) }
{
    let mut distances = first_distances(alloc, origins)?;
    loop {
        match shorten(&mut distances, edges) {
            Search::Done => return Ok(distances),
            Search::GoesOn => {}
        }
    }
}

/// The distances without any link.
fn first_distances(alloc: Global, origins: &[bool]) -> Result<Vec<u64>, AllocError>
    ensures { IfOk result (λ distances. distances.items ≡ map first_distance_at origins.now) }
{
    origins
        .iter()
        .map(|is_origin| first_distance(*is_origin))
        .collect(alloc)
}

fn first_distance(is_origin: bool) -> u64
    ensures { result ≡ first_distance_at is_origin }
{
    if is_origin { 0 } else { INFINITY }
}

/// Shortens the ways over each link.
fn shorten(distances: &mut [u64], edges: &[Edge]) -> Search
    ensures ways { (origins : List Bool) → length distances.old ≡ length origins → AreWays origins edges.now distances.old → AreWays origins edges.now distances.new }
    ensures lower { AreLower distances.old distances.new }
    ensures goes_on { result ≡ Search.GoesOn → sum distances.new < sum distances.old }
    ensures done { result ≡ Search.Done → AreSettled edges.now distances.new }
{
    let mut search = Search::Done;
    for edge in edges {
        if relax(distances, edge) {
            search = Search::GoesOn;
        }
    }
    search
}

/// Shortens the way over a link, in one direction. Returns whether it did.
fn relax(distances: &mut [u64], edge: &Edge) -> bool
    ensures ways { (origins : List Bool) (edges : List Edge) (k : ℕ) → slice_get edges k ≡ Some edge.now → length distances.old ≡ length origins → AreWays origins edges distances.old → AreWays origins edges distances.new }
    ensures lower { AreLower distances.old distances.new }
    ensures less { IsTrue result → sum distances.new < sum distances.old }
    ensures unchanged { result ≡ false → distances.new ≡ distances.old }
    ensures settled { result ≡ false → IsSettled distances.old edge.now }
{
    if lower(distances, edge.a, edge.b, edge.cost) {
        return true;
    }
    lower(distances, edge.b, edge.a, edge.cost)
}

/// Lowers the distance of a node to that over its neighbour, if this is less. Returns whether it
/// is.
fn lower(distances: &mut [u64], node: usize, next: usize, cost: u16) -> bool
    ensures shorter { IsTrue result → IsShorter distances.old node next cost }
    ensures lowered { IsTrue result → distances.new ≡ slice_set distances.old node (slice_index distances.old next + cost) }
    ensures unchanged { result ≡ false → distances.new ≡ distances.old }
    ensures not_shorter { result ≡ false → IsShorter distances.old node next cost → ⊥ }
{
    if node >= distances.len() || next >= distances.len() {
        return false;
    }
    let over = distances[next].saturating_add(u64::from(cost));
    if over >= INFINITY || over >= distances[node] {
        return false;
    }
    distances[node] = over;
    true
}
