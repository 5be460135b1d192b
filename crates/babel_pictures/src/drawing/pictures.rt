//! What a picture shows. Nodes are numbered from 0 on, and times are in centiseconds.

/// What a node does with packets to the prefix of the picture.
#[derive(Clone, Copy, PartialEq, Eq)]
pub enum Hop {
    /// It announces the prefix.
    Announces,
    /// It sends them to this node.
    Via(usize),
    /// It has no route.
    Unreachable,
    /// It is stopped.
    Down,
}

/// A node.
#[derive(Drop)]
pub struct DrawnNode {
    /// Its name.
    pub name: String,
    /// What it does at the moment of the picture.
    pub hop: Hop,
}

/// Whether a link carries datagrams.
#[derive(Clone, Copy)]
pub enum LinkState {
    /// It carries them.
    Up,
    /// It loses some of them.
    Lossy,
    /// It carries none.
    Cut,
}

/// A link between two nodes.
#[derive(Clone, Copy)]
pub struct DrawnLink {
    /// The number of one node.
    pub a: usize,
    /// The number of the other node.
    pub b: usize,
    /// Whether it carries datagrams at the moment of the picture.
    pub state: LinkState,
    /// Its cost, if it is to be read.
    pub cost: Option<u16>,
}

/// What a node did from a moment on.
#[derive(Clone, Copy)]
pub struct Span {
    /// The moment.
    pub from: u64,
    /// What it did.
    pub hop: Hop,
}

/// What a node did, in the order of time. A span ends when the next one begins.
#[derive(Drop)]
pub struct Row {
    /// The spans.
    pub spans: Vec<Span>,
}

/// Something that happened.
#[derive(Drop)]
pub struct Mark {
    /// When it happened.
    pub at: u64,
    /// What it was.
    pub text: String,
}

/// What the nodes did over a time.
#[derive(Drop)]
pub struct Timeline {
    /// When it begins.
    pub begin: u64,
    /// When it ends.
    pub end: u64,
    /// The moment of the picture.
    pub moment: u64,
    /// What happened, in the order of time.
    pub marks: Vec<Mark>,
    /// A row for each node, in the order of their numbers.
    pub rows: Vec<Row>,
}

/// A network at a moment, and what its nodes did over a time.
#[derive(Drop)]
pub struct Picture {
    /// The line above it.
    pub title: String,
    /// The nodes.
    pub nodes: Vec<DrawnNode>,
    /// The links.
    pub links: Vec<DrawnLink>,
    /// The timeline under it.
    pub timeline: Timeline,
}

impl Picture {
    /// Whether a node sends packets to the other one.
    pub(crate) fn uses(&self, from: usize, to: usize) -> bool {
        match self.nodes.get(from) {
            Some(node) => node.hop == Hop::Via(to),
            None => false,
        }
    }
}
