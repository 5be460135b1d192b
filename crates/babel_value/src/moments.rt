//! Durations, in centiseconds.

ghost use Rattle.std.specs.Prelude.{◌≡◌};
ghost use Rattle.babel_value.specs.Moments as moments;

/// How long an advertisement with this interval is kept, in centiseconds: 3.5 times the interval,
/// rounded down (RFC 8966, appendix B). It is the hold time of an IHU and of a route.
#[inline]
pub fn hold_time(interval: u16) -> u64
    ensures { result ≡ moments.hold_time interval }
{
    7 * u64::from(interval) / 2
}
