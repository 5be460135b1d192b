//! A network, and what happens in it.

use babel_value::Prefix;

/// The most nodes of a topology.
pub const MAX_NODES: usize = 4096;

/// The most interfaces of a node.
pub const MAX_INTERFACES: usize = 8;

/// How a node begins again after a restart or a crash.
#[derive(Clone, Copy)]
pub enum Restarts {
    /// With the source table and the own seqno that it had (RFC 8966, sections 3.2.5 and 3.2.2).
    Saved,
    /// With nothing.
    Empty,
}

/// A node.
#[derive(Drop)]
pub struct Node {
    /// Its name. No other node has it.
    pub name: String,
    /// Its router-id (RFC 8966, section 4.1.3).
    pub router_id: [u8; 8],
    /// The prefixes that it announces at first.
    pub prefixes: Vec<Prefix>,
    /// The interval between two Hellos, in centiseconds (RFC 8966, section 3.4.1).
    pub hello: u16,
    /// How it begins again.
    pub restarts: Restarts,
}

/// Where a link ends: at an interface of a node.
#[derive(Clone, Copy, PartialEq, Eq)]
pub struct End {
    /// The number of the node.
    pub node: usize,
    /// The number of the node's interface.
    pub iface: usize,
}

/// A link between two nodes.
#[derive(Clone, Copy)]
pub struct Link {
    /// One end.
    pub a: End,
    /// The other end.
    pub b: End,
    /// How long a datagram takes, in centiseconds.
    pub delay: u64,
    /// How many of 100 datagrams are lost.
    pub loss: u16,
    /// The nominal cost of receiving over it at each end, 1 to 65534 (RFC 8966, appendix A.2.1).
    pub cost: u16,
}

/// What happens to a link or to a node.
#[derive(Clone, Copy)]
pub enum Action {
    /// The link carries nothing any more.
    Cut { link: usize },
    /// The link carries datagrams again.
    Join { link: usize },
    /// The cost of the link changes at both ends.
    SetCost { link: usize, cost: u16 },
    /// How many of 100 datagrams the link loses from now on.
    SetLoss { link: usize, loss: u16 },
    /// The node announces the prefix.
    Announce { node: usize, prefix: Prefix },
    /// The node announces the prefix no longer.
    Withdraw { node: usize, prefix: Prefix },
    /// The node stops and begins again at once, or begins again after a crash.
    Restart { node: usize },
    /// The node stops: it neither sends nor receives until it restarts.
    Crash { node: usize },
}

/// A step of the plan.
#[derive(Clone, Copy)]
pub struct Step {
    /// The moment, in centiseconds from the beginning.
    pub at: u64,
    /// What happens then.
    pub action: Action,
}

/// Over which node a node is to reach a prefix.
#[derive(Clone, Copy, PartialEq, Eq)]
pub enum NextHop {
    /// Over this one.
    Via(usize),
    /// Over none.
    Unreachable,
}

/// What is to hold at a moment.
#[derive(Clone, Copy)]
pub struct Expectation {
    /// The moment, in centiseconds from the beginning.
    pub at: u64,
    /// The number of the node.
    pub node: usize,
    /// The prefix.
    pub prefix: Prefix,
    /// The next hop of the node's selected route to the prefix.
    pub hop: NextHop,
}

/// A network, and what happens in it.
#[derive(Drop)]
pub struct Topology {
    /// The nodes, by their numbers from 0 on.
    pub nodes: Vec<Node>,
    /// For each node the costs of its interfaces, by their numbers from 0 on.
    pub interfaces: Vec<Vec<u16>>,
    /// The links, by their numbers from 0 on.
    pub links: Vec<Link>,
    /// The plan, in the order of its moments.
    pub steps: Vec<Step>,
    /// What is to hold.
    pub expectations: Vec<Expectation>,
    /// How long the network runs, in centiseconds.
    pub duration: u64,
    /// The seed of everything that is random.
    pub seed: u64,
}
