//! The lines of the log.

ghost use Rattle.std.specs.Prelude.{◌≡◌, ◌≢◌, ◌++◌, [], ◌∷◌, Ok, OnOk, true, false};
ghost use Rattle.std.specs.Io.KnownBytes.{Appends};
ghost use Rattle.std.specs.Str.{trim_end};
ghost use Rattle.babel_ask.specs.Questions.{line_feed};
ghost use Rattle.babel_ask.specs.Replies.{is_log_line};

use crate::AnswerForm;
use crate::objects::Quoted;
use std::io::{self, Write};

/// Writes a line that a control socket sends after `log on`, and flushes. The greeting and the
/// replies of the socket are left out.
///
/// # Errors
///
/// Writing fails.
pub fn show_log_line<W: Write>(form: AnswerForm, line: &str, out: &mut W) -> io::Result<()>
    ensures left_out { is_log_line line.now ≡ false → out.new ≡ out.old }
    ensures text { is_log_line line.now ≡ true → form ≢ AnswerForm.Json → OnOk result (Appends (W.contents out.old) (W.contents out.new) (trim_end line.now ++ line_feed ∷ [])) }
{
    if !is_of_log(line) {
        return Ok(());
    }
    write_log_line(form, line.trim_end(), out)?;
    out.flush()?;
    Ok(())
}

/// Writes each line of the log.
pub(crate) fn write_log<W: Write>(form: AnswerForm, lines: &str, out: &mut W) -> io::Result<()> {
    for line in lines.lines() {
        if is_of_log(line) {
            write_log_line(form, line, out)?;
        }
    }
    Ok(())
}

fn write_log_line<W: Write>(form: AnswerForm, line: &str, out: &mut W) -> io::Result<()>
    ensures text { form ≢ AnswerForm.Json → OnOk result (Appends (W.contents out.old) (W.contents out.new) (line.now ++ line_feed ∷ [])) }
{
    match form {
        AnswerForm::Text | AnswerForm::Coloured => writeln!(out, "{line}"),
        AnswerForm::Json => match line.split_once(' ') {
            Some((time, event)) => {
                let event = Quoted(event);
                writeln!(out, "{{\"time\":{time},\"event\":{event}}}")
            }
            None => Ok(()),
        },
    }
}

/// Whether the line is one of the log: those begin with the moment, and no other does.
fn is_of_log(line: &str) -> bool
    ensures { result ≡ is_log_line line.now }
{
    match line.as_bytes().first() {
        Some(octet) => octet.is_ascii_digit(),
        None => false,
    }
}
