//! Why a whole datagram is refused.

ghost use Rattle.std.specs.Prelude.{◌≡◌, ◌+◌, ◌≤◌, ◌++◌, Some, length};
ghost use Rattle.babel_value.specs.Lines.{line_room};
ghost use Rattle.babel_message.specs.Texts.{refusal_code};

use babel_value::line_parts::{put_str, put_u64};
use babel_value::{Line, ShortText};
use std::fmt;
use std::fmt::Display;
use thiserror::Error;

/// Why a datagram is refused, in the order in which the causes are tested. The text is a phrase;
/// [`Refusal::code`] has the code that the program prints.
#[derive(Clone, Copy, Debug, PartialEq, Eq, Error)]
pub enum Refusal {
    /// P1: fewer octets than a header has (RFC 8966, section 4.2).
    #[error("the datagram is shorter than its header")]
    Short,
    /// P2: the first octet isn't 42 (RFC 8966, section 4.2).
    #[error("the first octet isn't Babel's magic number")]
    Magic,
    /// P3: the second octet isn't 2 (RFC 8966, section 4.2).
    #[error("the version isn't 2")]
    Version,
    /// P4: the body is longer than the rest of the datagram (RFC 8966, section 4.2).
    #[error("the body is longer than the rest of the datagram")]
    BodyLength,
    /// P5: the TLV at this offset, counted from the datagram's first octet, runs past the body (RFC
    /// 8966, section 4.3).
    #[error("the TLV at offset {0} runs past the end of the body")]
    Tlv(usize),
    /// P6: an allocation failed.
    #[error("out of memory")]
    Memory,
}

impl Refusal {
    /// The code that the program prints, for instance `P5 4`.
    pub fn code(self) -> RefusalCode
        ensures { result.refusal ≡ self }
    {
        RefusalCode { refusal: self }
    }
}

/// The code of a refusal as text: `P1` to `P6`, with the offset after `P5`.
#[derive(Clone, Copy)]
pub struct RefusalCode {
    /// The refusal.
    pub refusal: Refusal,
}

impl RefusalCode {
    /// Appends the code, which is at most 23 octets.
    pub fn push_to(&self, line: &mut Line)
        requires room { length line.old + 23 ≤ line_room }
        ensures text { line.new ≡ line.old ++ refusal_code self.now.refusal }
        ensures short { length line.new ≤ length line.old + 23 }
    {
        line.push(self);
    }
}

impl ShortText for RefusalCode {
    ghost text = { λ code. refusal_code code.refusal };

    ghost most = { 23 };

    fn put(&self, line: &mut [u8], len: usize) -> usize {
        match self.refusal {
            Refusal::Short => put_str(line, len, "P1"),
            Refusal::Magic => put_str(line, len, "P2"),
            Refusal::Version => put_str(line, len, "P3"),
            Refusal::BodyLength => put_str(line, len, "P4"),
            Refusal::Tlv(offset) => {
                let len = put_str(line, len, "P5 ");
                put_u64(line, len, offset as u64)
            }
            Refusal::Memory => put_str(line, len, "P6"),
        }
    }
}

/// The code, with the offset after `P5`.
impl fmt::Display for RefusalCode {
    ghost output = { λ code. Some (refusal_code code.refusal) };

    fn fmt<W: fmt::Write>(&self, f: &mut fmt::Formatter<W>) -> fmt::Result {
        let mut line = Line::new();
        self.push_to(&mut line);
        line.fmt(f)
    }
}
