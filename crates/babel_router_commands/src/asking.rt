//! The command `ask`: what a running speaker replies over its control socket.

use crate::exchanges::{exchange, follow};
use crate::places::{PlaceState, TOO_LONG, place_state};
use babel_arguments::{Colours, argument, wants_details};
use babel_ask::{AnswerForm, AskFault, Question, parse_question, show_answer};
use babel_commands::{Status, refuse};
use babel_control::parse_place;
use babel_line_details::Excerpt;
use babel_text::parse_prefix;
use clap::ArgMatches;
use std::fs::Files;
use std::io::{self, IsTerminal, Write};
use std::net::Net;

/// Where the control socket is if no path is given.
const DEFAULT_PATH: &str = "/run/babel/control";

/// Why a question gets no reply.
#[derive(Clone, Copy)]
pub(crate) enum Refused {
    /// F3: the prefix can't be read.
    Prefix,
    /// W7: the place is a number that is no port.
    Port,
    /// W7: the socket can't be reached, or no reply comes in time.
    Socket(io::ErrorKind),
    /// W7: what is there is no speaker's socket, or has no reply to the question.
    Reply(AskFault),
    /// L7: the reply can't be written.
    Output,
    /// L8: an allocation failed.
    Memory,
}

/// W7, or L8 if memory is missing.
impl From<io::Error> for Refused {
    fn from(error: io::Error) -> Refused {
        match error.kind() {
            io::ErrorKind::OutOfMemory => Refused::Memory,
            kind => Refused::Socket(kind),
        }
    }
}

/// Asks the speaker, and writes its reply. Its fault is written.
pub fn run_ask<F: AllocGlobal + Files + Net, W: Write, E: Write + IsTerminal>(
    rt: &F,
    arguments: &ArgMatches<'_>,
    colours: Colours,
    out: &mut W,
    err: &mut E,
) -> Status {
    let word = argument(arguments, "question");
    let prefix = arguments.get_str("prefix");
    let Some(question) = parse_question(word, prefix) else {
        // If writing fails too, the status still reports it.
        let _ = explain_question(word, prefix, err);
        return Status::Usage;
    };
    let form = form_of(arguments, colours);
    let refused = match ask(rt, arguments, &question, form, out) {
        Ok(()) => return Status::Done,
        Err(refused) => refused,
    };
    let status = refuse(&code_of(refused), err);
    if wants_details(arguments, err) {
        // If writing the sentence fails, the status still reports the fault.
        let _ = explain(rt, arguments, refused, err);
    }
    status
}

/// Writes why the words are no question, and what the questions are.
fn explain_question<E: Write>(word: &str, prefix: Option<&str>, err: &mut E) -> io::Result<()> {
    write!(err, "babel ask: ")?;
    match prefix {
        None if word == "why" => write!(err, "why needs a PREFIX, as 10.0.0.0/8")?,
        Some(prefix) if parse_question(word, None).is_some() => {
            write!(err, "{word} takes no PREFIX, and {} came", Excerpt(prefix))?
        }
        _ => write!(err, "{} is no question", Excerpt(word))?,
    }
    writeln!(err, "; ask neighbours, routes, why PREFIX, log or counts")
}

/// In which form the reply is shown.
fn form_of(arguments: &ArgMatches<'_>, colours: Colours) -> AnswerForm {
    if arguments.get_flag("json") {
        return AnswerForm::Json;
    }
    match colours {
        Colours::Shown => AnswerForm::Coloured,
        Colours::Hidden => AnswerForm::Text,
    }
}

fn code_of(refused: Refused) -> &'static str {
    match refused {
        Refused::Prefix => "F3",
        Refused::Port | Refused::Socket(_) | Refused::Reply(_) => "W7",
        Refused::Output => "L7",
        Refused::Memory => "L8",
    }
}

fn explain<F: Files, E: Write>(
    rt: &F,
    arguments: &ArgMatches<'_>,
    refused: Refused,
    err: &mut E,
) -> io::Result<()> {
    let place = place_of(arguments);
    match refused {
        Refused::Prefix => {
            let prefix = Excerpt(argument(arguments, "prefix"));
            writeln!(
                err,
                "{prefix} is not a prefix, as 10.0.0.0/8 or 2001:db8::/32"
            )
        }
        Refused::Port => writeln!(
            err,
            "--control {} is no port from 1 to 65535",
            Excerpt(place)
        ),
        Refused::Socket(kind) => {
            writeln!(
                err,
                "--control {}: {}",
                Excerpt(place),
                reason_of(rt, place, kind)
            )
        }
        Refused::Reply(fault) => writeln!(err, "--control {}: {fault}", Excerpt(place)),
        Refused::Output => writeln!(err, "the answer can't be written"),
        Refused::Memory => writeln!(err, "out of memory"),
    }
}

/// Why the socket can't be reached, or sends no reply. The system refuses connections to a place
/// at which no process listens, also to a folder and to another file.
fn reason_of<F: Files>(rt: &F, place: &str, kind: io::ErrorKind) -> &'static str {
    match kind {
        io::ErrorKind::NotFound => {
            "no such file; start the speaker by ./babel run DEVICE --control PATH, or PORT"
        }
        io::ErrorKind::NotADirectory => "a part of the path is no directory",
        io::ErrorKind::PermissionDenied => {
            "permission denied; whoever may write to the socket's file may ask"
        }
        io::ErrorKind::InvalidInput | io::ErrorKind::InvalidFilename => TOO_LONG,
        io::ErrorKind::WouldBlock | io::ErrorKind::TimedOut => {
            "a process listens there, but didn't reply within 5 s"
        }
        io::ErrorKind::ConnectionRefused => match place_state(rt, place) {
            PlaceState::Folder => "is a directory",
            PlaceState::OtherFile => "is no socket",
            _ => {
                "no speaker listens there; \
                 start it by ./babel run DEVICE --control PATH, or PORT"
            }
        },
        _ => "the connection failed, or the speaker ended",
    }
}

/// The path or the port of the control socket.
fn place_of<'m>(arguments: &'m ArgMatches<'_>) -> &'m str {
    match arguments.get_str("control") {
        Some(place) => place,
        None => DEFAULT_PATH,
    }
}

fn ask<F: AllocGlobal + Net, W: Write>(
    rt: &F,
    arguments: &ArgMatches<'_>,
    question: &Question<'_>,
    form: AnswerForm,
    out: &mut W,
) -> Result<(), Refused> {
    if let Question::Why(prefix) = *question {
        if parse_prefix(prefix).is_none() {
            return Err(Refused::Prefix);
        }
    }
    let Some(place) = parse_place(place_of(arguments)) else {
        return Err(Refused::Port);
    };
    let Ok(request) = question.request(rt.alloc()) else {
        return Err(Refused::Memory);
    };
    if let Question::Log = *question {
        return follow(rt, place, &request, form, out);
    }
    let mut answer = String::new(rt.alloc());
    match exchange(rt, place, &request, &mut answer) {
        Ok(()) => show(question, form, &answer, out),
        Err(error) => Err(Refused::from(error)),
    }
}

/// Shows the speaker's reply.
fn show<W: Write>(
    question: &Question<'_>,
    form: AnswerForm,
    answer: &str,
    out: &mut W,
) -> Result<(), Refused> {
    match show_answer(question, form, answer, out) {
        Ok(()) => Ok(()),
        Err(AskFault::Output) => Err(Refused::Output),
        Err(fault) => Err(Refused::Reply(fault)),
    }
}
