//! Marks as a word of bits.

ghost use Rattle.std.specs.Prelude.{◌≡◌, ◌≤◌, ◌++◌, true, false, [], ◌∷◌, drop, length, replicate, nat_le, if◌then◌else◌};
ghost use Rattle.babel_link.specs.Histories.{max_gap, max_marks, newest, is_up, has_received};
ghost use Rattle.babel_link.specs.Words.{is_received, word_of};
ghost use Rattle.std.specs.Int.{from_bool};

use std::marker::Model;

/// How many marks a word has room for.
const ROOM: u8 = 16;

/// How far a Hello may be from the expected one, either way.
pub(crate) const NEAR: u16 = 16;

/// What became of a Hello that was expected.
#[derive(Clone, Copy)]
pub(crate) enum Mark {
    /// It came.
    Received,
    /// It was missed.
    Missed,
}

impl Mark {
    /// The mark as a bit.
    fn bit(self) -> u16
        ensures { result ≡ from_bool (is_received self) }
    {
        match self {
            Mark::Received => 1,
            Mark::Missed => 0,
        }
    }
}

/// The newest marks, at most as many as there is room for: the lowest bit is the newest mark, and a
/// 1 a Hello that came.
#[derive(Clone, Copy, Debug)]
pub(crate) struct Word {
    pub(crate) bits: u16,
    pub(crate) count: u8,
}

impl Model for Word {
    ghost use Rattle.std.specs.Prelude.{◌<◌, ◌≤◌, ◌^◌, List, Bool, length};
    ghost use Rattle.babel_link.specs.Histories.{max_marks};
    ghost use Rattle.babel_link.specs.Words.{marks_of, word_of};
    ghost use Rattle.babel_link.specs.WordLaws.{word_of-marks_of, length-marks_of};

    ghost Value = { List Bool };

    ghost view = { λ w. marks_of w.count w.bits };

    ghost invariant = { λ w. (w.count ≤ max_marks) × (w.bits < 2 ^ w.count) };

    ghost inverse = { λ marks. record { bits = word_of marks; count = length marks } };

    ghost inverse_ok = { λ w fits i. record { bits = word_of-marks_of w.count w.bits fits.1 i; count = length-marks_of w.count w.bits i } };
}

impl Word {
    /// A single mark, of a Hello that came.
    pub(crate) fn received() -> Word
        ensures { result ≡ true ∷ [] }
    {
        Word { bits: 1, count: 1 }
    }

    /// Adds a mark. The oldest goes if there is no room.
    pub(crate) fn push(&mut self, mark: Mark)
        ensures { self.new ≡ newest (is_received mark ∷ self.old) }
    {
        self.bits = (self.bits << 1) | mark.bit();
        if self.count < ROOM {
            self.count += 1;
        }
    }

    /// Adds marks of Hellos that were missed.
    fn push_missed(&mut self, count: u16)
        ensures { self.new ≡ newest (replicate count false ++ self.old) }
    {
        // So that the proof knows that there is room for the marks that are there.
        let _ = &self.bits;
        for _ in 0..count {
            self.push(Mark::Missed);
        }
    }

    /// Removes the newest mark, if there is one.
    fn pop(&mut self)
        ensures { self.new ≡ drop 1 self.old }
    {
        self.bits >>= 1;
        self.count = self.count.saturating_sub(1);
    }

    /// Removes the newest marks.
    fn forget(&mut self, count: u16)
        ensures { self.new ≡ drop count self.old }
    {
        for _ in 0..count {
            self.pop();
        }
    }

    /// Adds the mark of a Hello that came. If `ahead` is near, as many were missed before it. Else
    /// it is `late`, and as many of the newest marks go.
    #[tactic(auto, using(crate::proofs::WordLemmas::newest_newest))]
    pub(crate) fn hear(&mut self, ahead: u16, late: u16)
        ensures { self.new
            ≡ newest (true ∷ (if nat_le ahead max_gap then replicate ahead false ++ self.old else drop late self.old)) }
    {
        if ahead <= NEAR {
            self.push_missed(ahead);
        } else {
            self.forget(late);
        }
        self.push(Mark::Received);
    }

    /// Whether at least two of the newest three came.
    pub(crate) fn is_up(&self) -> bool
        ensures { result ≡ is_up self.now }
    {
        (self.bits & 0b111).count_ones() >= 2
    }

    /// How many marks there are.
    #[tactic(auto, using(crate::proofs::WordLemmas::count_of_marks))]
    pub(crate) fn count(&self) -> u8
        ensures count { result ≡ length self.now }
        ensures few { result ≤ max_marks }
    {
        self.count
    }

    /// The marks as a word: the lowest bit is the newest one.
    #[tactic(auto, using(crate::proofs::WordLemmas::word_of_marks))]
    pub(crate) fn bits(&self) -> u16
        ensures { result ≡ word_of self.now }
    {
        self.bits
    }

    /// Whether one of them came.
    pub(crate) fn has_received(&self) -> bool
        ensures { result ≡ has_received self.now }
    {
        self.bits != 0
    }
}
