//! The field of a line of `show` that can't be read.

use crate::problems::unseen_problem;
use crate::{HexProblem, LineDetail, LineProblem, explain_log_line};
use babel_text::LineFault;

/// What is wrong with a line `<source> <hex>` or `<hex>`, whose fault is known.
pub fn explain_shown_line(line: &[u8], fault: LineFault) -> LineDetail<'_> {
    match fault {
        LineFault::Address | LineFault::Hex => explain_fields(line, fault),
        _ => explain_log_line(line, fault),
    }
}

fn explain_fields(line: &[u8], fault: LineFault) -> LineDetail<'_> {
    let Ok(text) = str::from_utf8(line) else {
        return LineDetail::of_line(LineProblem::NotText);
    };
    if let Some(detail) = unseen_problem(text) {
        return detail;
    }
    let (source, hex) = text.split_once(' ').unwrap_or(("", text));
    match fault {
        LineFault::Address => LineDetail::of_field(text, text, LineProblem::Address(source)),
        _ => LineDetail::of_field(text, hex, LineProblem::Hex(explain_hex(hex), hex)),
    }
}

/// Why the text isn't octets in hexadecimal.
pub fn explain_hex(text: &str) -> HexProblem {
    let mut count = 0usize;
    for letter in text.chars() {
        if !letter.is_ascii_hexdigit() {
            return HexProblem::NotADigit(letter);
        }
        count = count.saturating_add(1);
    }
    match count {
        0 => HexProblem::Empty,
        _ if count % 2 == 1 => HexProblem::OddDigits(count),
        _ => HexProblem::TooMany,
    }
}
