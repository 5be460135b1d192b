//! What is known of a run in the end. Moments and times are in centiseconds; nodes, links and
//! prefixes are numbers from 0 on.

use babel_topology::NextHop;
use babel_value::Prefix;
use std::alloc::Global;

/// Whether a next hop leads on.
#[derive(Clone, Copy)]
pub enum HopKind {
    /// The way over it doesn't come back.
    Onward,
    /// The way over it comes back to a node that it passed. It can only be the way over a node that
    /// began again with nothing.
    Loop,
}

/// A next hop of a node that changed.
#[derive(Clone, Copy)]
pub struct HopChange {
    /// The moment.
    pub at: u64,
    /// The node.
    pub node: usize,
    /// The index of the prefix in [`Outcome::prefixes`].
    pub prefix: usize,
    /// The next hop from now on.
    pub hop: NextHop,
    /// Whether it leads on.
    pub kind: HopKind,
}

/// What a node's way to a prefix is worth.
#[derive(Clone, Copy)]
pub enum RouteKind {
    /// The node announces the prefix.
    Own,
    /// It is a shortest way.
    Shortest,
    /// There is a shorter way.
    Longer,
    /// There is a way, and the node has no route.
    Missing,
    /// There is no way, and the node has no route.
    Unreachable,
    /// The way ends at a link or a node that is down, or at a node without a route.
    Broken,
    /// The way comes back to a node that it passed.
    Loop,
    /// The node is down.
    Down,
}

impl RouteKind {
    /// The word for it.
    pub(crate) fn word(self) -> &'static str {
        match self {
            RouteKind::Own => "own",
            RouteKind::Shortest => "shortest",
            RouteKind::Longer => "longer",
            RouteKind::Missing => "missing",
            RouteKind::Unreachable => "unreachable",
            RouteKind::Broken => "broken",
            RouteKind::Loop => "loop",
            RouteKind::Down => "down",
        }
    }
}

/// A node's way to a prefix.
#[derive(Clone, Copy)]
pub struct Route {
    /// The node.
    pub node: usize,
    /// The index of the prefix in [`Outcome::prefixes`].
    pub prefix: usize,
    /// The next hop.
    pub hop: NextHop,
    /// The sum of the costs of the links along the way, if it arrives.
    pub cost: Option<u64>,
    /// That of a shortest way, if there is one.
    pub shortest: Option<u64>,
    /// What the way is worth.
    pub kind: RouteKind,
}

/// How many ways of nodes to prefixes there are of each kind.
#[derive(Clone, Copy, Default)]
pub struct Quality {
    /// Shortest ways.
    pub shortest: usize,
    /// Longer ways.
    pub longer: usize,
    /// No route, though there is a way.
    pub missing: usize,
    /// No route, and no way.
    pub unreachable: usize,
    /// Ways that end on the way.
    pub broken: usize,
    /// Ways that come back.
    pub loops: usize,
}

/// The time from a change of the plan to the next one. The first phase begins with the run.
#[derive(Clone, Copy)]
pub struct Phase {
    /// When it began.
    pub from: u64,
    /// When it ended.
    pub until: u64,
    /// The number of the first step of the plan with which it began.
    pub first_step: usize,
    /// How many steps of the plan it began with, all at one moment.
    pub steps: usize,
    /// How many next hops changed in it.
    pub changes: usize,
    /// How long after its beginning the last next hop changed.
    pub settled_after: u64,
    /// How many datagrams were sent until then.
    pub datagrams: u64,
    /// How many octets they had.
    pub octets: u64,
    /// How many datagrams were sent in the phase.
    pub all_datagrams: u64,
    /// How many octets they had.
    pub all_octets: u64,
    /// What the ways are worth at its end.
    pub quality: Quality,
}

/// What was there when an expectation was tested.
#[derive(Clone, Copy)]
pub struct Tested {
    /// The number of the expectation.
    pub expectation: usize,
    /// The next hop that was there.
    pub found: NextHop,
    /// Whether it is the one that was expected.
    pub is_met: bool,
}

/// What happened at a node.
#[derive(Clone, Copy, Default)]
pub struct Counts {
    /// How many datagrams it sent.
    pub datagrams: u64,
    /// How many octets they had.
    pub octets: u64,
    /// How many datagrams arrived at it.
    pub received: u64,
    /// How many datagrams to it were lost, by chance or since a link or the node was down.
    pub lost: u64,
    /// How many of its next hops changed.
    pub changes: u64,
    /// How often its own seqno grew.
    pub raises: u64,
}

/// What is known of a run.
#[derive(Drop)]
pub struct Outcome {
    /// The moment at which it ended.
    pub ended: u64,
    /// All prefixes, in ascending order.
    pub prefixes: Vec<Prefix>,
    /// The next hops that changed, in the order of their moments.
    pub changes: Vec<HopChange>,
    /// The phases, in order.
    pub phases: Vec<Phase>,
    /// For each phase the ways that are longer, missing, broken or a loop at its end, by prefix and
    /// then by node.
    pub not_shortest: Vec<Vec<Route>>,
    /// The ways at the end, by node and then by prefix.
    pub routes: Vec<Route>,
    /// What happened at each node.
    pub counts: Vec<Counts>,
    /// The expectations that were tested, in the order of their moments.
    pub tested: Vec<Tested>,
    /// How many datagrams were sent.
    pub datagrams: u64,
    /// How many octets they had.
    pub octets: u64,
    /// How many events the network made.
    pub events: u64,
}

impl Outcome {
    /// Nothing is known.
    pub fn new(alloc: Global) -> Outcome {
        Outcome {
            ended: 0,
            prefixes: Vec::new(alloc),
            changes: Vec::new(alloc),
            phases: Vec::new(alloc),
            not_shortest: Vec::new(alloc),
            routes: Vec::new(alloc),
            counts: Vec::new(alloc),
            tested: Vec::new(alloc),
            datagrams: 0,
            octets: 0,
            events: 0,
        }
    }
}
