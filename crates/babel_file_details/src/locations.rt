//! Where a value is in the tables of a file.

use crate::toml_places::{Path, Position, Side, Step, position_at};
use std::alloc::Global;
use std::fmt;

/// The table that a key is in.
#[derive(Clone, Copy, PartialEq, Eq)]
pub(crate) struct Owner {
    /// The node of a scenario; a configuration's file has none.
    pub(crate) node: Option<usize>,
    /// The interface of the configuration, if the table is one.
    pub(crate) iface: Option<usize>,
}

impl Owner {
    /// The table of the file itself.
    pub(crate) const FILE: Owner = Owner {
        node: None,
        iface: None,
    };

    /// A node of a scenario.
    pub(crate) fn of_node(node: usize) -> Owner {
        Owner {
            node: Some(node),
            iface: None,
        }
    }

    /// An interface of this configuration.
    pub(crate) fn interface(self, iface: usize) -> Owner {
        Owner {
            node: self.node,
            iface: Some(iface),
        }
    }

    /// The table itself.
    pub(crate) fn table<'a>(self) -> Location<'a> {
        Location {
            owner: self,
            key: None,
            index: None,
            side: Side::Value,
        }
    }

    /// The value at a key of the table.
    pub(crate) fn key<'a>(self, key: &'a str) -> Location<'a> {
        Location {
            owner: self,
            key: Some(key),
            index: None,
            side: Side::Value,
        }
    }
}

/// The table as the subject of a sentence.
impl fmt::Display for Owner {
    fn fmt<W: fmt::Write>(&self, f: &mut fmt::Formatter<W>) -> fmt::Result {
        match (self.node, self.iface) {
            (None, None) => f.write_str("the file"),
            (Some(node), None) => write!(f, "node {node}"),
            (None, Some(iface)) => write!(f, "interface {iface}"),
            (Some(node), Some(iface)) => write!(f, "interface {iface} of node {node}"),
        }
    }
}

/// Where a value is, or its key.
#[derive(Clone, Copy)]
pub(crate) struct Location<'a> {
    /// The table.
    pub(crate) owner: Owner,
    /// The key in the table; the table itself has none.
    key: Option<&'a str>,
    /// The index in the list at the key, if it is one of its elements.
    pub(crate) index: Option<usize>,
    /// Whether it is the place of the key.
    side: Side,
}

impl<'a> Location<'a> {
    /// A key of the table, in place of its value.
    pub(crate) fn of_name(owner: Owner, key: &'a str) -> Location<'a> {
        Location {
            owner,
            key: Some(key),
            index: None,
            side: Side::Key,
        }
    }

    /// An element of the list at this key.
    pub(crate) fn element(self, index: usize) -> Location<'a> {
        Location {
            owner: self.owner,
            key: self.key,
            index: Some(index),
            side: Side::Value,
        }
    }

    /// The position in the text of the file.
    pub(crate) fn position(&self, alloc: Global, octets: &[u8]) -> Option<Position> {
        let mut path = Path::new();
        if let Some(node) = self.owner.node {
            path.push_element("node", node);
        }
        if let Some(iface) = self.owner.iface {
            path.push_element("interface", iface);
        }
        if let Some(key) = self.key {
            path.push(Step::Key(key));
        }
        if let Some(index) = self.index {
            path.push(Step::Index(index));
        }
        position_at(alloc, octets, &path, self.side)
    }
}
