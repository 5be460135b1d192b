//! The sentence about a file that is refused.

use crate::explaining::{write_place, write_syntax_error};
use crate::sentences::{Sentence, Word};
use crate::toml_places::FileText;
use crate::topologies::causes::{Advice, cause_of};
use crate::topologies::places::{element_of, position_of};
use babel_line_details::Excerpt;
use babel_topology::TopologyFault;
use babel_topology::file::{
    Cause, FILE_KEYS, Kind, LINK_KEYS, NODE_KEYS, Part, Problem, first_problem,
};
use std::alloc::Global;
use std::io::{self, Write};
use toml::Table;

/// Writes why the file is refused: T1 to T19. If the cause isn't found, the sentence is that of the
/// code.
pub fn explain_topology<W: Write>(
    alloc: Global,
    file: FileText<'_>,
    fault: TopologyFault,
    out: &mut W,
) -> io::Result<()> {
    match toml::table_from_slice(alloc, file.octets) {
        Ok(table) => write_refusal(alloc, file, &table, fault, out),
        Err(error) => write_syntax_error(file, &error, &fault, out),
    }
}

fn write_refusal<W: Write>(
    alloc: Global,
    file: FileText<'_>,
    table: &Table,
    fault: TopologyFault,
    out: &mut W,
) -> io::Result<()> {
    match fault {
        TopologyFault::Form | TopologyFault::Text => match first_problem(table) {
            Some(problem) => write_problem(alloc, file, &problem, out),
            None => writeln!(out, "{}: {fault}", file.name),
        },
        _ => write_fault(alloc, file, table, fault, out),
    }
}

fn write_problem<W: Write>(
    alloc: Global,
    file: FileText<'_>,
    problem: &Problem<'_>,
    out: &mut W,
) -> io::Result<()> {
    write_place(file.name, position_of(alloc, file.octets, problem), out)?;
    writeln!(out, "{}", sentence_of(problem))
}

fn write_fault<W: Write>(
    alloc: Global,
    file: FileText<'_>,
    table: &Table,
    fault: TopologyFault,
    out: &mut W,
) -> io::Result<()> {
    write!(out, "{}", file.name)?;
    if let Some(element) = element_of(fault) {
        if let Some(position) = element.position(alloc, file.octets) {
            write!(out, ":{position}")?;
        }
        if let Some(text) = element.text(table) {
            write!(out, ": {}", Excerpt(text))?;
        }
        if let Some((a, b)) = element.ends(table) {
            write!(out, ": the link of {} and {}", Excerpt(a), Excerpt(b))?;
        }
    }
    write_cause(table, fault, out)
}

/// Writes the cause if it is known, and else those of the code; and what to do.
fn write_cause<W: Write>(table: &Table, fault: TopologyFault, out: &mut W) -> io::Result<()> {
    match cause_of(table, fault) {
        Some(cause) => {
            write!(out, ": {}", cause.sentence)?;
            match cause.advice {
                Advice::OfCode => writeln!(out, "; {}", advice(fault)),
                Advice::InSentence => writeln!(out),
            }
        }
        None => writeln!(out, ": {fault}; {}", advice(fault)),
    }
}

/// What to do about a fault.
fn advice(fault: TopologyFault) -> &'static str {
    match fault {
        TopologyFault::NodeCount => "write a [[node]] for each",
        TopologyFault::BadName(_) => "choose a name such as 'a' or 'roof_2'",
        TopologyFault::RepeatedName(_) => "give each node a name of its own",
        TopologyFault::BadRouterId(_) => {
            "give it another one, such as \"02000000000000aa\"; a node without one gets its number"
        }
        TopologyFault::UnknownEnd(_) => "'a' and 'b' are names of nodes of this file",
        TopologyFault::SameEnds(_) => "'a' and 'b' are two nodes",
        TopologyFault::RepeatedLink(_) => "two nodes have at most one link",
        TopologyFault::TooManyCosts(_) => {
            "a node has 8 interfaces; from 9 links on, links of one cost share one: use at most 8 costs at a node"
        }
        TopologyFault::BadStep(_) => STEP_FORM,
        TopologyFault::EarlyStep(_) => "write the steps in the order of their times",
        TopologyFault::LateStep(_) | TopologyFault::LateExpectation(_) => {
            "make 'duration' longer, or the time earlier"
        }
        TopologyFault::SharedCost(_) => {
            "a node with more than 8 links shares an interface between links of one cost; give the link another cost \
             from the start, or the node fewer links"
        }
        TopologyFault::BadExpectation(_) => {
            "write TIME NODE PREFIX via NODE, or TIME NODE PREFIX none, as '30 s b 10.0.0.0/8 via a'"
        }
        TopologyFault::Memory => "give the process more of it",
        _ => "see the page about topologies",
    }
}

/// The forms of a step.
const STEP_FORM: &str =
    "write 'at TIME' and 'cut A-B', 'join A-B', 'cost A-B N' (1 to 65534), 'lossy A-B N %' (0 to 100), \
'announce A PREFIX', 'withdraw A PREFIX', 'restart A' or 'crash A'";

fn sentence_of<'a>(problem: &Problem<'a>) -> Sentence<'a> {
    let key = Word::Text(problem.key);
    let (text, words) = match problem.cause {
        Cause::UnknownKey => return unknown_key(problem.part, key),
        Cause::MissingKey => return missing_key(problem.part, key),
        Cause::WrongKind(kind) => return wrong_kind(problem, kind),
        Cause::OutOfRange(number, kind) => (
            "{} = {} is not {}",
            [key, Word::Number(number), Word::TopologyKind(kind)],
        ),
        Cause::BadText(text, kind) => (
            "{} {} is not {}",
            [key, Word::Excerpt(text), Word::TopologyKind(kind)],
        ),
    };
    Sentence { text, words }
}

/// A value of another kind: that of a key, an element of the list at it, or a node or a link.
fn wrong_kind<'a>(problem: &Problem<'a>, kind: Kind) -> Sentence<'a> {
    let key = Word::Text(problem.key);
    let kind_word = Word::TopologyKind(kind);
    let (text, words) = match (problem.part, kind) {
        (Part::Node(number) | Part::Link(number), Kind::Table) => {
            ("{} {} must be {}", [key, Word::Count(number), kind_word])
        }
        _ if problem.index.is_some() => (
            "each {} of '{}' must be {}",
            [Word::Text(element_name(problem.key)), key, kind_word],
        ),
        _ => ("'{}' must be {}", [key, kind_word, Word::Empty]),
    };
    Sentence { text, words }
}

/// What an element of the list at a key is called.
fn element_name(key: &str) -> &'static str {
    match key {
        "plan" => "step",
        "expect" => "expectation",
        _ => "element",
    }
}

fn unknown_key(part: Part, key: Word<'_>) -> Sentence<'_> {
    let (text, words) = match part {
        Part::File => (
            "unknown key '{}' in the file; the keys are {}",
            [key, Word::Text(FILE_KEYS), Word::Empty],
        ),
        Part::Node(number) => (
            "unknown key '{}' in node {}; the keys are {}",
            [key, Word::Count(number), Word::Text(NODE_KEYS)],
        ),
        Part::Link(number) => (
            "unknown key '{}' in link {}; the keys are {}",
            [key, Word::Count(number), Word::Text(LINK_KEYS)],
        ),
    };
    Sentence { text, words }
}

fn missing_key(part: Part, key: Word<'_>) -> Sentence<'_> {
    let (text, words) = match part {
        Part::File => ("the file has no key '{}'", [key, Word::Empty, Word::Empty]),
        Part::Node(number) => (
            "node {} has no key '{}'",
            [Word::Count(number), key, Word::Empty],
        ),
        Part::Link(number) => (
            "link {} has no key '{}'",
            [Word::Count(number), key, Word::Empty],
        ),
    };
    Sentence { text, words }
}
