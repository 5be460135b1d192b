//! The sentence about a file of `run --config` that is refused: line and column, key, value, and
//! what is allowed.

use crate::explaining::{FileKind, explain_file, write_place};
use crate::sentences::{Sentence, Word};
use crate::toml_places::{FileText, Path, Position, Side, Step, position_at};
use babel_config::FileFault;
use babel_router_file::{Cause, DEVICE, DEVICE_KEYS, FILE_KEYS, Kind, Problem, first_problem};
use std::alloc::Global;
use std::io::{self, Write};

/// Writes why the file is refused: F1 to F3, and F4. If the cause isn't found, the sentence is that
/// of the code.
pub fn explain_router_file<W: Write>(
    alloc: Global,
    file: FileText<'_>,
    fault: FileFault,
    out: &mut W,
) -> io::Result<()> {
    match toml::table_from_slice(alloc, file.octets) {
        Ok(table) => match first_problem(&table) {
            Some(problem) => write_problem(alloc, file, &problem, out),
            None => writeln!(out, "{}: {fault}", file.name),
        },
        Err(_) => explain_file(alloc, file, FileKind::Config, fault, out),
    }
}

fn write_problem<W: Write>(
    alloc: Global,
    file: FileText<'_>,
    problem: &Problem<'_>,
    out: &mut W,
) -> io::Result<()> {
    write_place(file.name, position_of(alloc, file.octets, problem), out)?;
    writeln!(out, "{}", sentence_of(problem))
}

fn position_of(alloc: Global, octets: &[u8], problem: &Problem<'_>) -> Option<Position> {
    let side = match problem.cause {
        Cause::UnknownKey => Side::Key,
        _ => Side::Value,
    };
    position_at(alloc, octets, &path_of(problem), side)
}

/// The path from the table of the file to the value.
fn path_of<'a>(problem: &Problem<'a>) -> Path<'a> {
    let mut path = Path::new();
    match (problem.device, problem.cause) {
        (Some(device), _) => {
            path.push(Step::Key(DEVICE));
            path.push(Step::Key(device));
        }
        // The key is the name of a device.
        (None, Cause::WrongKind(Kind::Device)) => path.push(Step::Key(DEVICE)),
        _ => {}
    }
    path.push(Step::Key(problem.key));
    if let Some(index) = problem.index {
        path.push(Step::Index(index));
    }
    path
}

fn sentence_of<'a>(problem: &Problem<'a>) -> Sentence<'a> {
    let key = Word::Text(problem.key);
    let (text, words) = match problem.cause {
        Cause::UnknownKey => match problem.device {
            Some(device) => (
                "unknown key '{}' of device {}; the keys are {}",
                [key, Word::Text(device), Word::Text(DEVICE_KEYS)],
            ),
            None => (
                "unknown key '{}' in the file; the keys are {}",
                [key, Word::Text(FILE_KEYS), Word::Empty],
            ),
        },
        Cause::WrongKind(kind) if problem.index.is_some() => (
            "each element of '{}' must be {}",
            [key, Word::RouterKind(kind), Word::Empty],
        ),
        Cause::WrongKind(kind) => (
            "'{}' must be {}",
            [key, Word::RouterKind(kind), Word::Empty],
        ),
        Cause::OutOfRange(number, kind) => {
            (
                "{} = {} is not {}",
                [key, Word::Number(number), Word::RouterKind(kind)],
            )
        }
        Cause::BadText(text, kind) => {
            (
                "{} {} is not {}",
                [key, Word::Excerpt(text), Word::RouterKind(kind)],
            )
        }
    };
    Sentence { text, words }
}
