//! IPv6 addresses as RFC 5952 writes them.

use babel_value::Addr;
use memchr::memchr;
use std::io::{self, Write};
use std::net::Ipv6Addr;

/// Appends the line with each IPv6 address in its shortest form (RFC 5952, section 4). What is no
/// address stays as it is.
pub(crate) fn push_short(line: &str, out: &mut Vec<u8>) -> io::Result<()> {
    if !has_colon(line) {
        return Ok(out.extend_from_slice(line.as_bytes())?);
    }
    let mut is_first = true;
    for word in line.split(' ') {
        if !is_first {
            out.push(b' ')?;
        }
        is_first = false;
        push_word(word, out)?;
    }
    Ok(())
}

/// Whether there is a colon in the text. Only an IPv6 address has colons: most lines have none, and
/// of the others most words.
fn has_colon(text: &str) -> bool {
    memchr(b':', text.as_bytes()).is_some()
}

/// Appends an address or a prefix in its shortest form, or another word as it is.
fn push_word(word: &str, out: &mut Vec<u8>) -> io::Result<()> {
    if !has_colon(word) {
        return Ok(out.extend_from_slice(word.as_bytes())?);
    }
    let (front, rest) = match word.find('/') {
        Some(at) => word.split_at(at),
        None => (word, ""),
    };
    match Addr::parse_ascii(front.as_bytes()) {
        Ok(Addr::V6(octets)) => write!(out, "{}{rest}", Ipv6Addr::from(octets)),
        _ => out.write_all(word.as_bytes()),
    }
}
