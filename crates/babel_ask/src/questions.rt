//! What is asked.

ghost use Rattle.std.specs.Prelude.{◌≡◌, ◌↔◌, Some, None, codes, IfOk};
ghost use Rattle.std.specs.String.{string_bytes};
ghost use Rattle.babel_ask.specs.Questions.{request_text, IsQuestionOf};

use std::alloc::{AllocError, Global};

/// What an operator asks.
#[derive(Clone, Copy)]
pub enum Question<'q> {
    /// The neighbours.
    Neighbours,
    /// The routes.
    Routes,
    /// Why each route of a prefix is used or not.
    Why(&'q str),
    /// What becomes of each datagram from now on.
    Log,
    /// What was counted.
    Counts,
}

/// The question of these words. `None`: there is no such one.
pub fn parse_question<'q>(word: &str, prefix: Option<&'q str>) -> Option<Question<'q>>
    ensures { IsQuestionOf word.now prefix.entry result }
{
    match prefix {
        Some(prefix) if word == "why" => Some(Question::Why(prefix)),
        Some(_) => None,
        None => parse_word(word),
    }
}

fn parse_word<'q>(word: &str) -> Option<Question<'q>>
    ensures neighbours { result ≡ Some Question.Neighbours ↔ word.now ≡ codes "neighbours" }
    ensures routes { result ≡ Some Question.Routes ↔ word.now ≡ codes "routes" }
    ensures log { result ≡ Some Question.Log ↔ word.now ≡ codes "log" }
    ensures counts { result ≡ Some Question.Counts ↔ word.now ≡ codes "counts" }
    ensures reads { IsQuestionOf word.now None result }
{
    match word {
        "neighbours" => Some(Question::Neighbours),
        "routes" => Some(Question::Routes),
        "log" => Some(Question::Log),
        "counts" => Some(Question::Counts),
        _ => None,
    }
}

impl Question<'_> {
    /// The lines that ask it of the control socket. The last one ends the connection, but for that
    /// of the log.
    pub fn request(&self, alloc: Global) -> Result<String, AllocError>
        ensures { IfOk result (λ text. string_bytes text ≡ request_text self.now) }
    {
        match *self {
            Question::Neighbours | Question::Routes => {
                format!(in alloc; "dump\nexpiries\nquit\n")
            }
            Question::Log => format!(in alloc; "log on\n"),
            Question::Counts => format!(in alloc; "counts\nquit\n"),
            // The interfaces of its lines are numbers: the dump has their names.
            Question::Why(prefix) => format!(in alloc; "dump\nwhy {prefix}\nquit\n"),
        }
    }
}
