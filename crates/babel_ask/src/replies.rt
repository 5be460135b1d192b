//! A whole reply.

ghost use Rattle.std.specs.Prelude.{◌≡◌, ◌↔◌, Err, true, false};
ghost use Rattle.babel_ask.specs.Replies.{is_greeting, has_refusal};

use crate::Question;
use crate::columns::{NEIGHBOUR_COLUMNS, ROUTE_COLUMNS};
use crate::logs::write_log;
use crate::objects::{Value, write_objects};
use crate::reasons::{write_reason_objects, write_reasons};
use crate::tables::{Colours, write_table};
use std::io::{self, Write};
use thiserror::Error;

/// In which form a reply is shown.
#[derive(Clone, Copy)]
pub enum AnswerForm {
    /// For people.
    Text,
    /// For people at a terminal: the same in colours.
    Coloured,
    /// An object a line.
    Json,
}

/// Why a reply isn't shown.
#[derive(Clone, Copy, Debug, PartialEq, Eq, Error)]
pub enum AskFault {
    /// No speaker of Babel replied.
    #[error("is no control socket of a Babel speaker")]
    Foreign,
    /// The speaker doesn't know the command, or can't read the prefix.
    #[error("the speaker can't answer that")]
    Refused,
    /// The reply can't be written.
    #[error("the answer can't be written")]
    Output,
}

/// Writes the reply of the control socket to a question.
///
/// # Errors
///
/// It is no reply, it is a refusal, or writing fails.
pub fn show_answer<W: Write>(
    question: &Question<'_>,
    form: AnswerForm,
    answer: &str,
    out: &mut W,
) -> Result<(), AskFault>
    ensures foreign { result ≡ Err AskFault.Foreign ↔ is_greeting answer.now ≡ false }
    ensures refused { result ≡ Err AskFault.Refused ↔ (is_greeting answer.now ≡ true) × (has_refusal answer.now ≡ true) }
    ensures foreign_unwritten { result ≡ Err AskFault.Foreign → out.new ≡ out.old }
    ensures refused_unwritten { result ≡ Err AskFault.Refused → out.new ≡ out.old }
{
    if !is_greeted(answer) {
        return Err(AskFault::Foreign);
    }
    if is_refused(answer) {
        return Err(AskFault::Refused);
    }
    match write_answer(question, form, answer, out) {
        Ok(()) => Ok(()),
        Err(_) => Err(AskFault::Output),
    }
}

/// Whether a speaker of the protocol replied.
fn is_greeted(answer: &str) -> bool
    ensures { result ≡ is_greeting answer.now }
{
    answer.as_bytes().starts_with(b"BABEL 1.")
}

/// Whether a command was refused.
fn is_refused(answer: &str) -> bool
    ensures { result ≡ has_refusal answer.now }
{
    answer.lines().any(|line| line == "bad")
}

fn write_answer<W: Write>(
    question: &Question<'_>,
    form: AnswerForm,
    answer: &str,
    out: &mut W,
) -> io::Result<()> {
    let written = match form {
        AnswerForm::Text => write_text(question, Colours::Hidden, answer, out),
        AnswerForm::Coloured => write_text(question, Colours::Shown, answer, out),
        AnswerForm::Json => write_json(question, answer, out),
    };
    written?;
    out.flush()
}

fn write_text<W: Write>(
    question: &Question<'_>,
    colours: Colours,
    answer: &str,
    out: &mut W,
) -> io::Result<()> {
    match *question {
        Question::Neighbours => {
            write_table(answer, "neighbour", &NEIGHBOUR_COLUMNS, colours, out)
        }
        Question::Routes => write_table(answer, "route", &ROUTE_COLUMNS, colours, out),
        Question::Why(prefix) => write_reasons(answer, prefix, out),
        Question::Log => write_log(AnswerForm::Text, answer, out),
        Question::Counts => write_counts(answer, out),
    }
}

fn write_json<W: Write>(question: &Question<'_>, answer: &str, out: &mut W) -> io::Result<()> {
    match *question {
        Question::Neighbours => write_objects(answer, "neighbour", &NEIGHBOUR_COLUMNS, out),
        Question::Routes => write_objects(answer, "route", &ROUTE_COLUMNS, out),
        Question::Why(prefix) => write_reason_objects(answer, prefix, out),
        Question::Log => write_log(AnswerForm::Json, answer, out),
        Question::Counts => write_counts_object(answer, out),
    }
}

/// The words of the line of counts: names, each with a number.
fn counts_in(answer: &str) -> &str {
    for line in answer.lines() {
        if let Some(counts) = line.strip_prefix("counts ") {
            return counts;
        }
    }
    ""
}

fn write_counts<W: Write>(answer: &str, out: &mut W) -> io::Result<()> {
    let mut words = counts_in(answer).split_ascii_whitespace();
    for _ in 0..u64::MAX {
        let (Some(name), Some(count)) = (words.next(), words.next()) else {
            return Ok(());
        };
        writeln!(out, "{name:<10}  {count:>10}")?;
    }
    Ok(())
}

fn write_counts_object<W: Write>(answer: &str, out: &mut W) -> io::Result<()> {
    let mut words = counts_in(answer).split_ascii_whitespace();
    write!(out, "{{")?;
    for number in 0..u64::MAX {
        let (Some(name), Some(count)) = (words.next(), words.next()) else {
            break;
        };
        let mark = if number == 0 { "" } else { "," };
        let count = Value::number(count);
        write!(out, "{mark}\"{name}\":{count}")?;
    }
    writeln!(out, "}}")
}
