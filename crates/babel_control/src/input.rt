//! The line that a client has sent so far.

ghost use Rattle.std.specs.Prelude.{◌≡◌, ◌≢◌, ◌≤◌, ◌<◌, ◌↔◌, ◌++◌, [], ◌∷◌, length};
ghost use Rattle.babel_control.specs.Limits.{line_room, line_feed};

use arrayvec::ArrayVec;
use std::marker::Model;

/// The most octets of a line, without its line feed.
pub const MAX_LINE: usize = 1024;

/// What an octet of a client did.
#[derive(Clone, Copy)]
pub enum TakenOctet {
    /// The line goes on.
    More,
    /// It was the line feed: the line is whole.
    Whole,
    /// There is no room for it.
    TooLong,
}

/// A line of at most `MAX_LINE` octets. A clause sees it as the list of its octets.
#[derive(Drop)]
pub struct InputLine {
    octets: ArrayVec<u8, MAX_LINE>,
}

impl Model for InputLine {
    ghost use Rattle.std.specs.Prelude.{List, ℕ};

    ghost Value = { List ℕ };

    ghost view = { λ l. l.octets.items };
}

impl InputLine {
    /// Nothing came yet.
    pub fn new() -> InputLine
        ensures { result ≡ [] }
    {
        InputLine {
            octets: ArrayVec::new(),
        }
    }

    /// Takes an octet. A line feed, and what has no room, is not added.
    pub fn take(&mut self, octet: u8) -> TakenOctet
        ensures whole { result ≡ TakenOctet.Whole ↔ octet ≡ line_feed }
        ensures full { result ≡ TakenOctet.TooLong → line_room ≤ length self.old }
        ensures more { result ≡ TakenOctet.More → self.new ≡ self.old ++ octet ∷ [] }
        ensures room { result ≡ TakenOctet.More → length self.old < line_room }
        ensures unchanged { result ≢ TakenOctet.More → self.new ≡ self.old }
    {
        if octet == b'\n' {
            return TakenOctet::Whole;
        }
        if self.octets.len() < MAX_LINE {
            self.octets.push(octet);
            return TakenOctet::More;
        }
        TakenOctet::TooLong
    }

    /// The next line begins.
    pub fn clear(&mut self)
        ensures { self.new ≡ [] }
    {
        self.octets.clear();
    }

    /// The octets that came.
    pub fn octets(&self) -> &[u8]
        ensures { result.now ≡ self.now }
    {
        self.octets.as_slice()
    }
}
