//! Lines of text, put together before they are written at once.

ghost use Rattle.std.specs.Prelude.{◌≡◌, ◌+◌, ◌≤◌, [], ◌++◌, Some, length, take};
ghost use Rattle.std.specs.Fmt.{decimal};
ghost use Rattle.babel_value.specs.Texts.{addr_text, prefix_text, router_text};
ghost use Rattle.babel_value.specs.Lines.{line_room};

use crate::line_parts::{
    put_addr, put_field, put_prefix, put_router_id, put_str, put_u8, put_u16, put_u64,
};
use crate::{Addr, Prefix, RouterId, ShortText};
use std::cmp::min;
use std::fmt;
use std::marker::Model;

/// How many octets a line has room for.
pub const LINE_ROOM: usize = 256;

/// A line of text of at most `LINE_ROOM` octets. What is printed often is put together here and
/// written by one call.
#[derive(Drop)]
pub struct Line {
    octets: [u8; LINE_ROOM],
    len: usize,
}

impl Model for Line {
    ghost use Rattle.std.specs.Prelude.{List, ℕ, ◌≤◌, take};
    ghost use Rattle.babel_value.specs.Lines.{line_room};

    ghost Value = { List ℕ };

    ghost view = { λ l. take l.len l.octets };

    ghost invariant = { λ l. l.len ≤ line_room };
}

impl Line {
    /// An empty line.
    #[inline]
    pub fn new() -> Line
        ensures { result ≡ [] }
    {
        Line {
            octets: [0; LINE_ROOM],
            len: 0,
        }
    }

    /// Appends a text, for which there must be room.
    #[inline(always)]
    pub fn push_str(&mut self, text: &str)
        requires room { length self.old + length text.now ≤ line_room }
        ensures text { self.new ≡ self.old ++ text.now }
    {
        self.len = put_str(&mut self.octets, self.len, text);
    }

    /// Appends the text of a value.
    #[inline]
    pub fn push<T: ShortText>(&mut self, value: &T)
        requires room { length self.old + T.most ≤ line_room }
        ensures text { self.new ≡ self.old ++ T.text value.now }
        ensures short { length self.new ≤ length self.old + T.most }
    {
        self.len = value.put(&mut self.octets, self.len);
    }

    /// The octets of the line.
    #[inline]
    pub fn octets(&self) -> &[u8]
        ensures { result.now ≡ self.now }
    {
        &self.octets[..self.len]
    }

    /// Leaves only the first `len` octets of the line.
    #[inline]
    pub fn truncate(&mut self, len: usize)
        ensures { self.new ≡ take len self.old }
    {
        self.len = min(self.len, len);
    }

    /// Appends a number in decimal.
    #[inline]
    pub fn push_usize(&mut self, number: usize)
        requires room { length self.old + 20 ≤ line_room }
        ensures text { self.new ≡ self.old ++ decimal number }
        ensures short { length self.new ≤ length self.old + 20 }
    {
        self.push_u64(number as u64);
    }

    /// Appends a number in decimal.
    pub fn push_u64(&mut self, number: u64)
        requires room { length self.old + 20 ≤ line_room }
        ensures text { self.new ≡ self.old ++ decimal number }
        ensures short { length self.new ≤ length self.old + 20 }
    {
        self.len = put_u64(&mut self.octets, self.len, number);
    }

    /// Appends a number in decimal.
    #[inline]
    pub fn push_u16(&mut self, number: u16)
        requires room { length self.old + 5 ≤ line_room }
        ensures text { self.new ≡ self.old ++ decimal number }
        ensures short { length self.new ≤ length self.old + 5 }
    {
        self.len = put_u16(&mut self.octets, self.len, number);
    }

    /// Appends a number in decimal.
    pub fn push_u8(&mut self, number: u8)
        requires room { length self.old + 3 ≤ line_room }
        ensures text { self.new ≡ self.old ++ decimal number }
        ensures short { length self.new ≤ length self.old + 3 }
    {
        self.len = put_u8(&mut self.octets, self.len, number);
    }

    /// Appends a text, such as the name of a field, and a number in decimal.
    #[inline(always)]
    pub fn push_field(&mut self, name: &str, number: u16)
        requires room { length self.old + length name.now + 5 ≤ line_room }
        ensures text { self.new ≡ self.old ++ name.now ++ decimal number }
        ensures short { length self.new ≤ length self.old + length name.now + 5 }
    {
        self.len = put_field(&mut self.octets, self.len, name, number);
    }

    /// Appends two texts, such as the names of fields, each with a number in decimal.
    #[inline]
    pub fn push_fields(&mut self, first: &str, one: u16, second: &str, other: u16)
        requires room { length self.old + length first.now + length second.now + 10 ≤ line_room }
        ensures text { self.new ≡ self.old ++ (first.now ++ decimal one ++ second.now ++ decimal other) }
        ensures short { length self.new ≤ length self.old + length first.now + length second.now + 10 }
    {
        self.push_field(first, one);
        self.push_field(second, other);
    }

    /// Appends an address.
    #[inline]
    pub fn push_addr(&mut self, addr: &Addr)
        requires room { length self.old + 39 ≤ line_room }
        ensures text { self.new ≡ self.old ++ addr_text addr.now }
        ensures short { length self.new ≤ length self.old + 39 }
    {
        self.len = put_addr(&mut self.octets, self.len, addr);
    }

    /// Appends a prefix.
    #[inline]
    pub fn push_prefix(&mut self, prefix: &Prefix)
        requires room { length self.old + 45 ≤ line_room }
        ensures text { self.new ≡ self.old ++ prefix_text prefix.now }
        ensures short { length self.new ≤ length self.old + 45 }
    {
        self.len = put_prefix(&mut self.octets, self.len, prefix);
    }

    /// Appends a router-id.
    pub fn push_router_id(&mut self, router: RouterId)
        requires room { length self.old + 16 ≤ line_room }
        ensures text { self.new ≡ self.old ++ router_text router }
        ensures short { length self.new ≤ length self.old + 16 }
    {
        self.len = put_router_id(&mut self.octets, self.len, &router);
    }
}

/// The octets of the line, as text.
impl fmt::Display for Line {
    ghost output = { λ line. Some line };

    #[inline]
    fn fmt<W: fmt::Write>(&self, f: &mut fmt::Formatter<W>) -> fmt::Result {
        match str::from_utf8(self.octets()) {
            Ok(text) => f.write_str(text),
            Err(_) => Err(fmt::Error),
        }
    }
}
