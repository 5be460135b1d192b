//! Where in a file a fault is.

use crate::toml_places::{Path, Position, Side, Step, position_at};
use babel_topology::TopologyFault;
use babel_topology::file::{Cause, Kind, Part, Problem};
use std::alloc::Global;
use toml::{Table, Value};

/// A list of the file, an element of it, and the key in a table there.
#[derive(Clone, Copy)]
pub(crate) struct Element {
    /// The key of the list.
    pub(crate) list: &'static str,
    /// The number of the element, from 0 on.
    pub(crate) number: usize,
    /// The key in the element.
    pub(crate) key: Option<&'static str>,
}

impl Element {
    fn new(list: &'static str, number: usize) -> Element {
        Element {
            list,
            number,
            key: None,
        }
    }

    fn key(list: &'static str, number: usize, key: &'static str) -> Element {
        Element {
            list,
            number,
            key: Some(key),
        }
    }

    /// The text in the file, if it is a text.
    pub(crate) fn text<'t>(&self, file: &'t Table) -> Option<&'t str> {
        let Some(Value::Array(items)) = file.get(self.list) else {
            return None;
        };
        let item = items.get(self.number)?;
        match self.key {
            Some(key) => item.get(key)?.as_str(),
            None => item.as_str(),
        }
    }

    /// The names of the nodes at its ends, if it is a link.
    pub(crate) fn ends<'t>(&self, file: &'t Table) -> Option<(&'t str, &'t str)> {
        if self.list != "link" {
            return None;
        }
        let Some(Value::Array(items)) = file.get(self.list) else {
            return None;
        };
        let link = items.get(self.number)?;
        Some((link.get("a")?.as_str()?, link.get("b")?.as_str()?))
    }

    /// Its position in the text of the file.
    pub(crate) fn position(&self, alloc: Global, octets: &[u8]) -> Option<Position> {
        let mut path = Path::new();
        path.push_element(self.list, self.number);
        if let Some(key) = self.key {
            path.push(Step::Key(key));
        }
        position_at(alloc, octets, &path, Side::Value)
    }
}

/// The element of the file that the fault is about.
pub(crate) fn element_of(fault: TopologyFault) -> Option<Element> {
    match fault {
        TopologyFault::BadName(number) | TopologyFault::RepeatedName(number) => {
            Some(Element::key("node", number, "name"))
        }
        TopologyFault::BadRouterId(number) => Some(Element::new("node", number)),
        TopologyFault::UnknownEnd(number)
        | TopologyFault::SameEnds(number)
        | TopologyFault::RepeatedLink(number)
        | TopologyFault::TooManyCosts(number) => Some(Element::new("link", number)),
        TopologyFault::BadStep(number)
        | TopologyFault::EarlyStep(number)
        | TopologyFault::LateStep(number)
        | TopologyFault::SharedCost(number) => Some(Element::new("plan", number)),
        TopologyFault::BadExpectation(number) | TopologyFault::LateExpectation(number) => {
            Some(Element::new("expect", number))
        }
        _ => None,
    }
}

/// The position of a problem in the text of the file.
pub(crate) fn position_of(alloc: Global, octets: &[u8], problem: &Problem<'_>) -> Option<Position> {
    let side = match problem.cause {
        Cause::UnknownKey => Side::Key,
        _ => Side::Value,
    };
    position_at(alloc, octets, &path_of(problem), side)
}

/// The path from the table of the file to the value. A key that is missing has the path to its
/// table, and what should be a table has its own.
fn path_of<'a>(problem: &Problem<'a>) -> Path<'a> {
    let mut path = Path::new();
    match problem.part {
        Part::File => {}
        Part::Node(number) => path.push_element("node", number),
        Part::Link(number) => path.push_element("link", number),
    }
    match problem.cause {
        Cause::MissingKey | Cause::WrongKind(Kind::Table) => {}
        _ => path.push(Step::Key(problem.key)),
    }
    if let Some(index) = problem.index {
        path.push(Step::Index(index));
    }
    path
}
