//! The field of a log's line that can't be read.

use crate::problems::unseen_problem;
use crate::shown::explain_hex;
use crate::{LineDetail, LineProblem, NumberField};
use babel_text::{LineFault, parse_u16, parse_u64};

/// What is wrong with a line of a log, whose fault is known.
pub fn explain_log_line(line: &[u8], fault: LineFault) -> LineDetail<'_> {
    match fault {
        LineFault::Form | LineFault::Number | LineFault::Address | LineFault::Hex => {
            explain_text(line, fault)
        }
        LineFault::TooLong => LineDetail::of_line(LineProblem::TooLong),
        LineFault::Read => LineDetail::of_line(LineProblem::Read),
        LineFault::Write => LineDetail::of_line(LineProblem::Write),
        LineFault::Memory => LineDetail::of_line(LineProblem::Memory),
    }
}

fn explain_text(line: &[u8], fault: LineFault) -> LineDetail<'_> {
    let Ok(text) = str::from_utf8(line) else {
        return LineDetail::of_line(LineProblem::NotText);
    };
    if let Some(detail) = unseen_problem(text) {
        return detail;
    }
    match fault {
        LineFault::Number => explain_number(text),
        LineFault::Address => {
            let fields = after_interface(text);
            let (source, _hex) = split_field(fields);
            LineDetail::of_field(text, fields, LineProblem::Address(source))
        }
        LineFault::Hex => {
            let (_source, hex) = split_field(after_interface(text));
            let problem = LineProblem::Hex(explain_hex(hex), hex);
            LineDetail::of_field(text, hex, problem)
        }
        _ => LineDetail::of_line(LineProblem::Form(text)),
    }
}

/// The first of the time, the interface and the cost that is no number.
fn explain_number(text: &str) -> LineDetail<'_> {
    let (time, rest) = split_field(text);
    if parse_u64(time).is_none() {
        let problem = LineProblem::Number(NumberField::Time, time);
        return LineDetail::of_field(text, text, problem);
    }
    let (_word, fields) = split_field(rest);
    let (iface, cost) = split_field(fields);
    if parse_u16(iface).is_none() {
        let problem = LineProblem::Number(NumberField::Interface, iface);
        return LineDetail::of_field(text, fields, problem);
    }
    let problem = LineProblem::Number(NumberField::Cost, cost);
    LineDetail::of_field(text, cost, problem)
}

/// The fields after the interface.
fn after_interface(text: &str) -> &str {
    let (_time, rest) = split_field(text);
    let (_word, fields) = split_field(rest);
    let (_iface, rest) = split_field(fields);
    rest
}

/// The text before the first blank and the text after it, which is empty if there is no blank.
fn split_field(text: &str) -> (&str, &str) {
    text.split_once(' ').unwrap_or((text, ""))
}
