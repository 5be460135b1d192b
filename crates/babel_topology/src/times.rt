//! Times: a number and a unit.

ghost use Rattle.std.specs.Prelude.{◌≡◌, ℕ, List, IfSome, None};
ghost use Rattle.babel_text.specs.Readings.{Reads};
ghost use Rattle.babel_topology.specs.Times.{IsUnitText, centiseconds, IsTimeText, IsTimedText};

use crate::words::split_word;
use babel_text::parse_u16;

/// A unit of time.
#[derive(Clone, Copy)]
pub(crate) enum TimeUnit {
    /// `ms`.
    Milliseconds,
    /// `s`.
    Seconds,
    /// `min`.
    Minutes,
}

impl TimeUnit {
    /// So many of the unit, in centiseconds. Milliseconds are rounded down.
    fn centiseconds(self, count: u16) -> u64
        ensures { result ≡ centiseconds count self }
    {
        let count = u64::from(count);
        match self {
            TimeUnit::Milliseconds => count / 10,
            TimeUnit::Seconds => count * 100,
            TimeUnit::Minutes => count * 6000,
        }
    }
}

/// The unit that the text is.
fn parse_unit(text: &str) -> Option<TimeUnit>
    ensures { Reads IsUnitText text.now result }
{
    match text {
        "ms" => Some(TimeUnit::Milliseconds),
        "s" => Some(TimeUnit::Seconds),
        "min" => Some(TimeUnit::Minutes),
        _ => None,
    }
}

/// The time that the text is, in centiseconds, as `20 s`, `150 ms` or `2 min`.
pub fn parse_time(text: &str) -> Option<u64>
    ensures { Reads IsTimeText text.now result }
{
    let (count, unit) = split_word(text)?;
    let count = parse_u16(count)?;
    let unit = parse_unit(unit)?;
    Some(unit.centiseconds(count))
}

/// The time with which the text begins, in centiseconds, and what follows the blank after it.
pub(crate) fn parse_timed(text: &str) -> Option<(u64, &str)>
    ensures ok { IfSome result (λ timed. IsTimedText text.now timed.0 timed.1.now) }
    ensures none { result ≡ None → (time : ℕ) (rest : List ℕ) → ¬ (IsTimedText text.now time rest) }
{
    let (count, after_count) = split_word(text)?;
    let (unit, rest) = split_word(after_count)?;
    let count = parse_u16(count)?;
    let unit = parse_unit(unit)?;
    Some((unit.centiseconds(count), rest))
}
