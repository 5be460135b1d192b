//! Messages, reasons and places as the program prints them: values with a text of few octets, which
//! is put together before it is written.

ghost use Rattle.std.specs.Prelude.{◌≡◌, ◌+◌, ◌≤◌, ◌++◌, Some, codes, length, take};
ghost use Rattle.babel_value.specs.Texts.{prefix_text, router_text};
ghost use Rattle.babel_value.specs.Lines.{line_room};
ghost use Rattle.babel_message.specs.Texts.{content_text, message_text, placed_text, reason_text, receiver_text};

use crate::{Content, Message, Placed, Reason};
use babel_value::line_parts::{put_addr, put_field, put_prefix, put_router_id, put_str, put_u64};
use babel_value::{Addr, Line, Prefix, RouterId, ShortText};
use std::fmt;
use std::fmt::Display;

/// The message's name and fields, as in `hello multicast seqno 1 interval 400`.
impl fmt::Display for Message {
    ghost output = { λ message. Some (message_text message) };

    fn fmt<W: fmt::Write>(&self, f: &mut fmt::Formatter<W>) -> fmt::Result {
        let mut line = Line::new();
        self.push_to(&mut line);
        line.fmt(f)
    }
}

/// The code, `I1` to `I13`, with the sub-TLV's type after `I5`.
impl fmt::Display for Reason {
    ghost output = { λ reason. Some (reason_text reason) };

    fn fmt<W: fmt::Write>(&self, f: &mut fmt::Formatter<W>) -> fmt::Result {
        let mut line = Line::new();
        self.push_to(&mut line);
        line.fmt(f)
    }
}

/// The message, `state`, or `ignored` and the reason.
impl fmt::Display for Content {
    ghost output = { λ content. Some (content_text content) };

    fn fmt<W: fmt::Write>(&self, f: &mut fmt::Formatter<W>) -> fmt::Result {
        let mut line = Line::new();
        self.push_to(&mut line);
        line.fmt(f)
    }
}

/// The offset, then the content.
impl fmt::Display for Placed {
    ghost output = { λ placed. Some (placed_text placed) };

    fn fmt<W: fmt::Write>(&self, f: &mut fmt::Formatter<W>) -> fmt::Result {
        let mut line = Line::new();
        self.push_to(&mut line);
        line.fmt(f)
    }
}

impl Placed {
    /// Appends the offset and the content, which are at most 186 octets.
    pub fn push_to(&self, line: &mut Line)
        requires room { length line.old + 186 ≤ line_room }
        ensures text { line.new ≡ line.old ++ placed_text self.now }
        ensures short { length line.new ≤ length line.old + 186 }
    {
        line.push(self);
    }
}

impl ShortText for Placed {
    ghost text = { placed_text };

    ghost most = { 186 };

    fn put(&self, line: &mut [u8], len: usize) -> usize {
        let len = put_u64(line, len, self.offset as u64);
        let len = put_str(line, len, " ");
        self.content.put(line, len)
    }
}

impl Content {
    /// Appends the message, `state`, or `ignored` and the reason: at most 165 octets.
    pub fn push_to(&self, line: &mut Line)
        requires room { length line.old + 165 ≤ line_room }
        ensures text { line.new ≡ line.old ++ content_text self.now }
        ensures short { length line.new ≤ length line.old + 165 }
    {
        line.push(self);
    }
}

impl ShortText for Content {
    ghost text = { content_text };

    ghost most = { 165 };

    fn put(&self, line: &mut [u8], len: usize) -> usize {
        match self {
            Content::Message(message) => message.put(line, len),
            Content::State => put_str(line, len, "state"),
            Content::Ignored(reason) => {
                let len = put_str(line, len, "ignored ");
                reason.put(line, len)
            }
        }
    }
}

impl Reason {
    /// Appends the code, and the sub-TLV's type after `I5`: at most 8 octets.
    pub fn push_to(&self, line: &mut Line)
        requires room { length line.old + 8 ≤ line_room }
        ensures text { line.new ≡ line.old ++ reason_text self.now }
        ensures short { length line.new ≤ length line.old + 8 }
    {
        line.push(self);
    }
}

impl ShortText for Reason {
    ghost text = { reason_text };

    ghost most = { 8 };

    fn put(&self, line: &mut [u8], len: usize) -> usize {
        match self {
            Reason::Padding => put_str(line, len, "I1"),
            Reason::UnknownType => put_str(line, len, "I2"),
            Reason::Unreadable => put_str(line, len, "I3"),
            Reason::TailOverrun => put_str(line, len, "I4"),
            Reason::MandatorySubTlv(kind) => put_field(line, len, "I5 ", u16::from(*kind)),
            Reason::UnknownEncoding => put_str(line, len, "I6"),
            Reason::NoDefaultPrefix => put_str(line, len, "I7"),
            Reason::NoRouterId => put_str(line, len, "I8"),
            Reason::NoNextHop => put_str(line, len, "I9"),
            Reason::ZeroInterval => put_str(line, len, "I10"),
            Reason::ZeroRxcost => put_str(line, len, "I11"),
            Reason::Wildcard => put_str(line, len, "I12"),
            Reason::NoHops => put_str(line, len, "I13"),
        }
    }
}

impl Message {
    /// Appends the message's name and fields, which are at most 165 octets.
    pub fn push_to(&self, line: &mut Line)
        requires room { length line.old + 165 ≤ line_room }
        ensures text { line.new ≡ line.old ++ message_text self.now }
        ensures short { length line.new ≤ length line.old + 165 }
    {
        line.push(self);
    }
}

impl ShortText for Message {
    ghost text = { message_text };

    ghost most = { 165 };

    fn put(&self, line: &mut [u8], len: usize) -> usize {
        match self {
            Message::AckRequest { opaque, interval } => {
                let len = put_field(line, len, "ack-request opaque ", *opaque);
                put_field(line, len, " interval ", *interval)
            }
            Message::Ack { opaque } => put_field(line, len, "ack opaque ", *opaque),
            Message::Hello {
                unicast: true,
                seqno,
                interval,
            } => {
                let len = put_field(line, len, "hello unicast seqno ", seqno.0);
                put_field(line, len, " interval ", *interval)
            }
            Message::Hello {
                unicast: false,
                seqno,
                interval,
            } => {
                let len = put_field(line, len, "hello multicast seqno ", seqno.0);
                put_field(line, len, " interval ", *interval)
            }
            Message::Ihu {
                to,
                rxcost,
                interval,
            } => {
                let len = put_str(line, len, "ihu to ");
                let len = put_receiver(line, len, to);
                let len = put_field(line, len, " rxcost ", rxcost.0);
                put_field(line, len, " interval ", *interval)
            }
            Message::Update {
                prefix,
                router,
                next_hop,
                seqno,
                metric,
                interval,
            } => {
                let len = put_source(line, len, "update ", prefix, router);
                let len = put_str(line, len, " next-hop ");
                let len = put_addr(line, len, next_hop);
                let len = put_field(line, len, " seqno ", seqno.0);
                let len = put_field(line, len, " metric ", metric.0);
                put_field(line, len, " interval ", *interval)
            }
            Message::Retraction { prefix, interval } => {
                let len = put_str(line, len, "retract ");
                let len = put_prefix(line, len, prefix);
                put_field(line, len, " interval ", *interval)
            }
            Message::RetractAll { interval } => {
                put_field(line, len, "retract-all interval ", *interval)
            }
            Message::RouteRequest { prefix } => {
                let len = put_str(line, len, "route-request ");
                put_prefix(line, len, prefix)
            }
            Message::DumpRequest => put_str(line, len, "dump-request"),
            Message::SeqnoRequest {
                prefix,
                router,
                seqno,
                hops,
            } => {
                let len = put_source(line, len, "seqno-request ", prefix, router);
                let len = put_field(line, len, " seqno ", seqno.0);
                put_field(line, len, " hops ", u16::from(*hops))
            }
        }
    }
}

/// Writes the receiver of an IHU.
fn put_receiver(line: &mut [u8], len: usize, to: &Option<Addr>) -> usize
    requires room { len + 39 ≤ length line.old }
    ensures text { take result line.new ≡ take len line.old ++ receiver_text to.now }
    ensures short { result ≤ len + 39 }
{
    match to {
        Some(addr) => put_addr(line, len, addr),
        None => put_str(line, len, "any"),
    }
}

/// Writes a name, and a prefix with its router-id. It is compiled into its callers, where the name
/// is a constant.
#[inline(always)]
fn put_source(line: &mut [u8], len: usize, name: &str, prefix: &Prefix, router: &RouterId) -> usize
    requires room { len + length name.now + 69 ≤ length line.old }
    ensures text { take result line.new ≡ take len line.old ++ name.now ++ prefix_text prefix.now ++ codes " router " ++ router_text router.now }
    ensures short { result ≤ len + length name.now + 69 }
{
    let len = put_str(line, len, name);
    let len = put_prefix(line, len, prefix);
    let len = put_str(line, len, " router ");
    put_router_id(line, len, router)
}
