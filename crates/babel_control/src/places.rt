//! Where a control socket is.

ghost use Rattle.std.specs.Prelude.{IfSome};
ghost use Rattle.babel_control.specs.Places.{IsPlaceOf};

use babel_text::parse_u16;

/// Where a control socket is.
#[derive(Clone, Copy)]
pub enum ControlPlace<'p> {
    /// A Unix socket at this path.
    Path(&'p str),
    /// A TCP socket at ::1 with this port, which is not 0.
    Port(u16),
}

/// The place that a text names: a port if it is a number from 1 to 65535, or else a path. `None`:
/// it is empty, or all of its characters are digits and it is no such number.
pub fn parse_place(text: &str) -> Option<ControlPlace<'_>>
    ensures { IfSome result (IsPlaceOf text.now) }
{
    match parse_u16(text) {
        Some(0) => None,
        Some(port) => Some(ControlPlace::Port(port)),
        None if is_of_digits(text) => None,
        None => Some(ControlPlace::Path(text)),
    }
}

fn is_of_digits(text: &str) -> bool {
    for octet in text.bytes() {
        if !octet.is_ascii_digit() {
            return false;
        }
    }
    true
}
