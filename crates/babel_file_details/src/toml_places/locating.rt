//! A key or a value, found in the text of a TOML document.
//!
//! The document was read already. Here it is read again, line by line, along one path.

use crate::toml_places::paths::{MAX_STEPS, Step};
use crate::toml_places::skipping::skip_value;
use std::alloc::Global;
use toml_parser::text::{skip_blank, skip_ws};
use toml_parser::{Key, dotted_key};

/// Where a value is: the texts that begin with its key and with itself. For a table with a header
/// both begin with the header, and for an element both with the element.
#[derive(Clone, Copy)]
pub struct Place<'t> {
    /// The text that begins with the key.
    pub key: &'t str,
    /// The text that begins with the value.
    pub value: &'t str,
}

/// Finds the value at the end of the path. `None` if it isn't there, or if an allocation fails.
pub fn locate<'t>(alloc: Global, text: &'t str, path: &[Step<'_>]) -> Option<Place<'t>> {
    let mut section = Section {
        depth: Some(0),
        counts: [0; MAX_STEPS],
    };
    let mut rest = text.strip_prefix('\u{feff}').unwrap_or(text);
    for _ in 0..text.len() {
        let start = skip_blank(rest, true);
        if start.is_empty() {
            return None;
        }
        let line = if start.starts_with('[') {
            take_header(alloc, start, path, &mut section)?
        } else {
            take_pair(alloc, start, path, &section)?
        };
        rest = match line {
            Line::Found(place) => return Some(place),
            Line::Other(after) => after,
        };
    }
    None
}

/// A line of the document.
enum Line<'t> {
    /// It has the value.
    Found(Place<'t>),
    /// It has not; what follows it.
    Other(&'t str),
}

/// Where the lines of a section are, along a path.
#[derive(Clone, Copy)]
struct Section {
    /// How many steps of the path lead to its table, if they do.
    depth: Option<usize>,
    /// For each step to an element, how many headers of elements of its list came.
    counts: [usize; MAX_STEPS],
}

impl Section {
    /// The number of steps after one to the key, if the path has it.
    fn at_key(&self, depth: usize, key: &str, path: &[Step<'_>]) -> Option<usize> {
        match path.get(depth) {
            Some(Step::Key(wanted)) if *wanted == key => depth.checked_add(1),
            _ => None,
        }
    }

    /// A header goes into the last element of a list.
    fn in_last_element(&self, depth: usize, path: &[Step<'_>]) -> Option<usize> {
        match path.get(depth) {
            Some(Step::Index(index)) => {
                let count = self.counts.get(depth).copied().unwrap_or(0);
                if count.checked_sub(1)? == *index {
                    depth.checked_add(1)
                } else {
                    None
                }
            }
            _ => Some(depth),
        }
    }

    /// The number of steps to the table or list that a header names.
    fn along_header(&self, key: &Key, path: &[Step<'_>]) -> Option<usize> {
        let mut depth = 0;
        for part in key.path.iter() {
            let next = self.at_key(depth, part.as_str(), path)?;
            depth = self.in_last_element(next, path)?;
        }
        self.at_key(depth, key.last.as_str(), path)
    }

    /// The number of steps to the value of a pair.
    fn along_pair(&self, key: &Key, path: &[Step<'_>]) -> Option<usize> {
        let mut depth = self.depth?;
        for part in key.path.iter() {
            depth = self.at_key(depth, part.as_str(), path)?;
        }
        self.at_key(depth, key.last.as_str(), path)
    }

    /// Goes on from the list of a header `[[key]]` into its new element.
    fn enter_element(&mut self, path: &[Step<'_>]) {
        if let Some(depth) = self.depth {
            if depth < path.len() {
                self.count_element(depth);
                self.depth = self.in_last_element(depth, path);
            }
        }
    }

    /// One more element of the list after so many steps; the lists in it begin.
    fn count_element(&mut self, depth: usize) {
        for (step, count) in self.counts.iter_mut().enumerate() {
            if step == depth {
                *count = count.saturating_add(1);
            } else if step > depth {
                *count = 0;
            }
        }
    }
}

fn take_header<'t>(
    alloc: Global,
    start: &'t str,
    path: &[Step<'_>],
    section: &mut Section,
) -> Option<Line<'t>> {
    let rest = match start.strip_prefix("[[") {
        Some(name) => {
            let rest = enter(alloc, name, path, section)?.strip_prefix("]]")?;
            section.enter_element(path);
            rest
        }
        None => enter(alloc, start.strip_prefix('[')?, path, section)?.strip_prefix(']')?,
    };
    Some(match section.depth {
        Some(depth) if depth == path.len() => Line::Found(Place {
            key: start,
            value: start,
        }),
        _ => Line::Other(rest),
    })
}

/// Goes into the table or list that a header names. Returns what follows its key.
fn enter<'t>(
    alloc: Global,
    name: &'t str,
    path: &[Step<'_>],
    section: &mut Section,
) -> Option<&'t str> {
    let (key, rest) = read_key(alloc, skip_ws(name))?;
    section.depth = section.along_header(&key, path);
    Some(rest)
}

fn take_pair<'t>(
    alloc: Global,
    start: &'t str,
    path: &[Step<'_>],
    section: &Section,
) -> Option<Line<'t>> {
    let (depth, rest) = read_pair(alloc, start, path, section)?;
    let value = skip_ws(rest.strip_prefix('=')?);
    if let Some(depth) = depth {
        let place = Place { key: start, value };
        if let Some(found) = descend(alloc, place, depth, path) {
            return Some(Line::Found(found));
        }
    }
    Some(Line::Other(skip_value(alloc, value)?))
}

/// The number of steps to the value of a pair, if they lead to it, and what follows its key.
fn read_pair<'t>(
    alloc: Global,
    start: &'t str,
    path: &[Step<'_>],
    section: &Section,
) -> Option<(Option<usize>, &'t str)> {
    let (key, rest) = read_key(alloc, start)?;
    Some((section.along_pair(&key, path), rest))
}

/// The key with which the text begins, and what follows it.
fn read_key(alloc: Global, text: &str) -> Option<(Key, &str)> {
    dotted_key(alloc, text).ok()
}

/// Goes the rest of the path, after so many steps, in the value.
fn descend<'t>(
    alloc: Global,
    place: Place<'t>,
    depth: usize,
    path: &[Step<'_>],
) -> Option<Place<'t>> {
    let mut place = place;
    for step in path.iter().skip(depth) {
        place = match *step {
            Step::Index(index) => element(alloc, place.value, index)?,
            Step::Key(key) => member(alloc, place.value, key)?,
        };
    }
    Some(place)
}

/// The element of a list with this index.
fn element(alloc: Global, list: &str, index: usize) -> Option<Place<'_>> {
    let mut rest = list.strip_prefix('[')?;
    for _ in 0..index {
        let start = skip_blank(rest, true);
        rest = after_comma(skip_value(alloc, start)?)?;
    }
    let start = skip_blank(rest, true);
    Some(Place {
        key: start,
        value: start,
    })
}

/// The value at a key of a table in braces.
fn member<'t>(alloc: Global, table: &'t str, wanted: &str) -> Option<Place<'t>> {
    let mut rest = table.strip_prefix('{')?;
    for _ in 0..table.len() {
        let start = skip_blank(rest, true);
        let (is_wanted, after) = read_member(alloc, start, wanted)?;
        let value = skip_ws(after.strip_prefix('=')?);
        if is_wanted {
            return Some(Place { key: start, value });
        }
        rest = after_comma(skip_value(alloc, value)?)?;
    }
    None
}

/// Whether the text begins with this key alone, and what follows its key.
fn read_member<'t>(alloc: Global, text: &'t str, wanted: &str) -> Option<(bool, &'t str)> {
    let (key, rest) = read_key(alloc, text)?;
    Some((key.path.is_empty() && key.last.as_str() == wanted, rest))
}

fn after_comma(text: &str) -> Option<&str> {
    skip_blank(text, true).strip_prefix(',')
}
