//! The commands of the control socket.

ghost use Rattle.std.specs.Prelude.{◌≡◌, ◌↔◌, [], ◌∷◌, Some, codes, true, false, IfSome};
ghost use Rattle.babel_control.specs.Words.{words_of, have_no_command};
ghost use Rattle.babel_control.specs.Commands.{is_of_babeld, IsReading};
ghost use Rattle.babel_control.specs.LineWords.{AreWords};

use babel_text::parse_prefix;
use babel_value::Prefix;

/// Whether a client is sent the log: what becomes of each datagram, as it happens.
#[derive(Clone, Copy, PartialEq, Eq)]
pub enum Logging {
    /// It is.
    On,
    /// It isn't.
    Off,
}

/// What a client asks for.
#[derive(Clone, Copy)]
pub enum Command {
    /// Nothing: a line without a word, or a comment.
    Nothing,
    /// A line for each interface, neighbour, announced prefix and route.
    Dump,
    /// The same, and then each change of them.
    Monitor,
    /// No changes any more.
    Unmonitor,
    /// The connection is closed.
    Quit,
    /// The routes of a prefix, and why each is used or not.
    Why(Prefix),
    /// Whether the log is sent from now on.
    Log(Logging),
    /// After how long neighbours and routes are given up if nothing more is heard.
    Expiries,
    /// What was counted.
    Counts,
    /// Whether the snapshot is kept.
    Keep,
    /// The speaker ends in order.
    Stop,
}

/// Reads a line. Blanks around its words don't count, and what comes after a `#` at its beginning
/// is a comment. `None`: there is no such command.
pub fn parse_command(line: &str) -> Option<Command>
    ensures { IsReading (words_of line.now) result }
{
    match words_in(line) {
        LineWords::Nothing => Some(Command::Nothing),
        LineWords::One(word) => parse_word(word),
        LineWords::Two(word, argument) => parse_pair(word, argument),
        LineWords::More => None,
    }
}

/// The words of a line, as far as a command has them.
#[derive(Clone, Copy)]
enum LineWords<'l> {
    /// There is none, or the line is a comment.
    Nothing,
    /// One.
    One(&'l str),
    /// Two.
    Two(&'l str, &'l str),
    /// More than two.
    More,
}

fn words_in(line: &str) -> LineWords<'_>
    ensures { AreWords (words_of line.now) result }
{
    let mut words = line.split_ascii_whitespace();
    let Some(word) = words.next() else {
        return LineWords::Nothing;
    };
    if word.as_bytes().starts_with(b"#") {
        return LineWords::Nothing;
    }
    let Some(argument) = words.next() else {
        return LineWords::One(word);
    };
    match words.next() {
        None => LineWords::Two(word, argument),
        Some(_) => LineWords::More,
    }
}

/// A command of two words.
fn parse_pair(word: &str, argument: &str) -> Option<Command>
    ensures { have_no_command (word.now ∷ argument.now ∷ []) ≡ false → IsReading (word.now ∷ argument.now ∷ []) result }
{
    match word {
        "why" => Some(Command::Why(parse_prefix(argument)?)),
        "log" => Some(Command::Log(parse_logging(argument)?)),
        _ => None,
    }
}

/// What comes after `log`.
pub(crate) fn parse_logging(word: &str) -> Option<Logging>
    ensures on { result ≡ Some Logging.On ↔ word.now ≡ codes "on" }
    ensures off { result ≡ Some Logging.Off ↔ word.now ≡ codes "off" }
{
    match word {
        "on" => Some(Logging::On),
        "off" => Some(Logging::Off),
        _ => None,
    }
}

/// A command that is one word.
pub(crate) fn parse_word(word: &str) -> Option<Command>
    ensures stop { result ≡ Some Command.Stop ↔ word.now ≡ codes "stop" }
    ensures keep { result ≡ Some Command.Keep ↔ word.now ≡ codes "keep" }
    ensures counts { result ≡ Some Command.Counts ↔ word.now ≡ codes "counts" }
    ensures expiries { result ≡ Some Command.Expiries ↔ word.now ≡ codes "expiries" }
    ensures reads { have_no_command (word.now ∷ []) ≡ false → IsReading (word.now ∷ []) result }
{
    match word {
        "counts" => Some(Command::Counts),
        "expiries" => Some(Command::Expiries),
        "keep" => Some(Command::Keep),
        "stop" => Some(Command::Stop),
        _ => parse_babeld_word(word),
    }
}

/// A command of babeld that is one word.
pub(crate) fn parse_babeld_word(word: &str) -> Option<Command>
    ensures dump { result ≡ Some Command.Dump ↔ word.now ≡ codes "dump" }
    ensures monitor { result ≡ Some Command.Monitor ↔ word.now ≡ codes "monitor" }
    ensures unmonitor { result ≡ Some Command.Unmonitor ↔ word.now ≡ codes "unmonitor" }
    ensures quit { result ≡ Some Command.Quit ↔ word.now ≡ codes "quit" }
    ensures known { IfSome result (λ command. is_of_babeld command ≡ true) }
{
    match word {
        "dump" => Some(Command::Dump),
        "monitor" => Some(Command::Monitor),
        "unmonitor" => Some(Command::Unmonitor),
        "quit" => Some(Command::Quit),
        _ => None,
    }
}
