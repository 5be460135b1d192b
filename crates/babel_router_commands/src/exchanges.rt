//! What `ask` sends over the control socket, and what it takes from there.

use crate::asking::Refused;
use babel_ask::{AnswerForm, AskFault, show_log_line};
use babel_control::{ControlPlace, local_address};
use std::alloc::Global;
use std::io::{self, BufRead, BufReader, Read, Write};
use std::net::{Net, OpenStream, TcpStream};
use std::os::unix::net::UnixStream;
use std::time::Duration;

/// How long the speaker has for its reply, in milliseconds.
const PATIENCE: u64 = 5000;

/// The most octets of a reply.
const MAX_ANSWER: u64 = 1 << 22;

/// How many octets of the log are read at a time.
const LOG_LEN: usize = 65_536;

/// Sends the request, and takes the reply until the speaker closes the connection.
pub(crate) fn exchange<F: Net>(
    rt: &F,
    place: ControlPlace<'_>,
    request: &str,
    answer: &mut String,
) -> io::Result<()> {
    let patience = Some(Duration::from_millis(PATIENCE));
    match place {
        ControlPlace::Path(path) => {
            let mut stream = UnixStream::connect(rt, path)?;
            stream.set_read_timeout(patience)?;
            stream.set_write_timeout(patience)?;
            take_answer(&mut stream, request, answer)
        }
        ControlPlace::Port(port) => {
            let mut stream = TcpStream::connect(rt, local_address(port))?;
            stream.set_read_timeout(patience)?;
            stream.set_write_timeout(patience)?;
            take_answer(&mut stream, request, answer)
        }
    }
}

fn take_answer<S: Read + Write>(
    stream: &mut S,
    request: &str,
    answer: &mut String,
) -> io::Result<()> {
    stream.write_all(request.as_bytes())?;
    Read::take(stream, MAX_ANSWER).read_to_string(answer)?;
    Ok(())
}

/// Sends the request, and writes each line of the log as it comes, until the speaker closes the
/// connection.
pub(crate) fn follow<F: AllocGlobal + Net, W: Write>(
    rt: &F,
    place: ControlPlace<'_>,
    request: &str,
    form: AnswerForm,
    out: &mut W,
) -> Result<(), Refused> {
    match place {
        ControlPlace::Path(path) => {
            let mut stream = UnixStream::connect(rt, path)?;
            stream.write_all(request.as_bytes())?;
            follow_stream(rt.alloc(), stream, form, out)
        }
        ControlPlace::Port(port) => {
            let mut stream = TcpStream::connect(rt, local_address(port))?;
            stream.write_all(request.as_bytes())?;
            follow_stream(rt.alloc(), stream, form, out)
        }
    }
}

fn follow_stream<S: Read + Drop, W: Write>(
    alloc: Global,
    stream: S,
    form: AnswerForm,
    out: &mut W,
) -> Result<(), Refused> {
    let mut reader = BufReader::with_capacity(alloc, LOG_LEN, stream)?;
    follow_lines(&mut reader, &mut String::new(alloc), form, out)
}

/// Writes each line of the log. The line is the room for one.
fn follow_lines<R: BufRead, W: Write>(
    reader: &mut R,
    line: &mut String,
    form: AnswerForm,
    out: &mut W,
) -> Result<(), Refused> {
    for number in 0..u64::MAX {
        line.clear();
        if reader.read_line(line)? == 0 {
            break;
        }
        if number == 0 && !is_greeting(line) {
            return Err(Refused::Reply(AskFault::Foreign));
        }
        if is_refusal(line) {
            return Err(Refused::Reply(AskFault::Refused));
        }
        if show_log_line(form, line, out).is_err() {
            return Err(Refused::Output);
        }
    }
    Ok(())
}

fn is_greeting(line: &str) -> bool {
    line.starts_with("BABEL 1.")
}

fn is_refusal(line: &str) -> bool {
    line.starts_with("bad") || line.starts_with("no ")
}
