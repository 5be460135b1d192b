//! An object of JSON, whose members keep their order.

use arrayvec::ArrayVec;
use serde::{Described, Serialize, Serializer};
use std::alloc::Global;
use std::io::{self, ErrorKind};

/// How many members an object has room for.
const MEMBERS: usize = 20;

/// The value of a member.
#[derive(Clone, Copy)]
pub(crate) enum Value<'a> {
    /// A text.
    Text(&'a str),
    /// A number without a sign.
    Number(u64),
    /// No value.
    Null,
}

/// A key with its value.
#[derive(Clone, Copy)]
pub(crate) struct Member<'a> {
    key: &'static str,
    value: Value<'a>,
}

impl Default for Member<'_> {
    fn default() -> Self {
        Member {
            key: "",
            value: Value::Null,
        }
    }
}

/// An object. A member for which there is no room is left out; no object has so many.
#[derive(Drop)]
pub(crate) struct Object<'a> {
    members: ArrayVec<Member<'a>, MEMBERS>,
}

impl<'a> Object<'a> {
    /// An object with the type alone, by which a reader knows the other keys.
    pub(crate) fn new(kind: &'static str) -> Object<'a> {
        let mut object = Object {
            members: ArrayVec::new(),
        };
        object.text("type", kind);
        object
    }

    /// Appends a member.
    pub(crate) fn put(&mut self, key: &'static str, value: Value<'a>) {
        let _ = self.members.try_push(Member { key, value });
    }

    /// Appends a text.
    pub(crate) fn text(&mut self, key: &'static str, text: &'a str) {
        self.put(key, Value::Text(text));
    }

    /// Appends a number.
    pub(crate) fn number(&mut self, key: &'static str, number: u64) {
        self.put(key, Value::Number(number));
    }

    /// Appends a member that has no value.
    pub(crate) fn null(&mut self, key: &'static str) {
        self.put(key, Value::Null);
    }

    /// Appends a text, or no value.
    pub(crate) fn text_or_null(&mut self, key: &'static str, text: Option<&'a str>) {
        match text {
            Some(text) => self.text(key, text),
            None => self.null(key),
        }
    }

    /// Appends a number, or no value.
    pub(crate) fn number_or_null(&mut self, key: &'static str, number: Option<u64>) {
        match number {
            Some(number) => self.number(key, number),
            None => self.null(key),
        }
    }

    /// Appends the object as JSON on a line. Its only fault is memory.
    pub(crate) fn push_to(&self, alloc: Global, out: &mut Vec<u8>) -> io::Result<()> {
        match serde_json::to_vec(alloc, self) {
            Ok(line) => out.extend_from_slice(line.as_slice())?,
            Err(_) => return Err(io::Error::from(ErrorKind::OutOfMemory)),
        }
        Ok(out.push(b'\n')?)
    }
}

impl Described for Object<'_> {}

impl Serialize for Object<'_> {
    fn serialize<S: Serializer>(&self, out: &mut S) -> Result<(), S::Error> {
        out.begin_map(None)?;
        for member in self.members.iter() {
            out.key(member.key)?;
            match member.value {
                Value::Text(text) => out.str(text),
                Value::Number(number) => out.u64(number),
                Value::Null => out.unit(),
            }?;
        }
        out.end_map()
    }
}
