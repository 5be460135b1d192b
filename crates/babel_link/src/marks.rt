//! Hello histories (RFC 8966, appendix A.1).

ghost use Rattle.std.specs.Prelude.{◌≡◌, ◌≤◌, length};
ghost use Rattle.babel_link.specs.Histories.{max_marks, first_marks, heard_marks, heard_verdict, missed_marks, is_up, has_received};
ghost use Rattle.babel_link.specs.Words.{word_of};

use crate::words::{Mark, NEAR, Word};
use babel_value::Seqno;
use std::marker::Model;

/// What a Hello means for its sender.
#[derive(Clone, Copy, Debug, PartialEq, Eq)]
pub enum Heard {
    /// It stays a neighbour.
    Kept,
    /// Its sequence number is more than 16 away from the expected one: the sender seems to have
    /// restarted, and what was known of it goes.
    Flush,
}

/// Which of the last 16 Hellos of one kind came, and the sequence number of the next one (RFC 8966,
/// appendix A.1). A clause sees the marks as a list of truth values, newest first.
#[derive(Clone, Copy, Debug)]
pub struct Marks {
    word: Word,
    expected: Seqno,
}

impl Model for Marks {
    ghost use Rattle.babel_link.specs.Histories.{MarksValue};

    ghost Value = { MarksValue };

    ghost view = { λ m. record { marks = m.word; expected = m.expected } };

    ghost inverse = { λ v. record { word = v.marks; expected = v.expected } };
}

impl Marks {
    /// The history that the first Hello of a kind makes.
    pub fn first(seqno: Seqno) -> Marks
        ensures { result ≡ first_marks seqno }
    {
        Marks {
            word: Word::received(),
            expected: seqno.next(),
        }
    }

    /// Handles a later Hello. If it is ahead of the expected one, those between were missed. If it
    /// is late, as many of the newest marks go. One that is more than 16 away begins the history
    /// again, and the call returns `Flush`.
    #[tactic(auto, unfolding(crate::specs::Histories::heard_marks, crate::specs::Histories::heard_verdict))]
    pub fn heard(&mut self, seqno: Seqno) -> Heard
        ensures verdict { result ≡ heard_verdict seqno self.old }
        ensures marks { self.new ≡ heard_marks seqno self.old }
    {
        let ahead = seqno.0.wrapping_sub(self.expected.0);
        let late = self.expected.0.wrapping_sub(seqno.0);
        if ahead > NEAR && late > NEAR {
            *self = Marks::first(seqno);
            return Heard::Flush;
        }
        self.word.hear(ahead, late);
        self.expected = seqno.next();
        Heard::Kept
    }

    /// Marks the expected Hello as missed.
    #[tactic(auto, unfolding(crate::specs::Histories::missed_marks))]
    pub fn missed(&mut self)
        ensures { self.new ≡ missed_marks self.old }
    {
        self.word.push(Mark::Missed);
        self.expected = self.expected.next();
    }

    /// Whether at least two of the newest three Hellos came (RFC 8966, appendix A.2.1).
    pub fn up(&self) -> bool
        ensures { result ≡ is_up self.now.marks }
    {
        self.word.is_up()
    }

    /// How many Hellos are remembered: each came or was missed.
    pub fn count(&self) -> u8
        ensures count { result ≡ length self.now.marks }
        ensures few { result ≤ max_marks }
    {
        self.word.count()
    }

    /// Which of them came, as a word of bits: the lowest bit is the newest Hello, and a 1 is one
    /// that came.
    pub fn bits(&self) -> u16
        ensures { result ≡ word_of self.now.marks }
    {
        self.word.bits()
    }

    /// The sequence number of the Hello that is expected next.
    pub fn expected(&self) -> Seqno
        ensures { result ≡ self.now.expected }
    {
        self.expected
    }

    /// Whether one of the Hellos came.
    pub(crate) fn has_received(&self) -> bool
        ensures { result ≡ has_received self.now.marks }
    {
        self.word.has_received()
    }
}
