//! Numbers: ASCII digits without a sign and without a leading zero.
//!
//! The digits are read by a loop of its own: `parse` of `u64` reads a sign too and is made for any
//! radix, and costs twice as much for each digit.

ghost use Rattle.std.specs.Prelude.{◌≡◌, ℕ, ◌+◌, ◌-◌, ◌*◌, ◌^◌, ◌<◌, ◌&&◌, ◌==◌, nat_lt, length, slice_index, MatchOption};
ghost use Rattle.std.specs.Int.{IsInRange};
ghost use Rattle.std.specs.Str.Parse.{IsNumeral, digits_value};
ghost use Rattle.babel_text.specs.Fields.{HasBlank, before_blank, after_blank};
ghost use Rattle.babel_text.specs.Readings.{Reads};
ghost use Rattle.babel_text.specs.Numbers.{IsNumberText};

/// No digit more makes a number up to this one too large for 64 bits.
const MOST_BEFORE: u64 = (u64::MAX - 9) / 10;

/// The number that the text spells, `None` exactly if it spells no number below 2^64.
pub fn parse_u64(text: &str) -> Option<u64>
    ensures { Reads (IsNumberText 64) text.now result }
{
    u64_of(text.as_bytes())
}

/// The number that the text spells, `None` exactly if it spells no number up to 65535.
pub fn parse_u16(text: &str) -> Option<u16>
    ensures { Reads (IsNumberText 16) text.now result }
{
    u16_of(text.as_bytes())
}

/// The number that the text spells, `None` exactly if it spells no number up to 255.
pub fn parse_u8(text: &str) -> Option<u8>
    ensures { Reads (IsNumberText 8) text.now result }
{
    u8_of(text.as_bytes())
}

/// The number that these octets of text spell, `None` exactly if they spell no number up to 255.
pub fn u8_of(text: &[u8]) -> Option<u8>
    ensures { Reads (IsNumberText 8) text.now result }
{
    let number = u64_of(text)?;
    u8::try_from(number).ok()
}

/// The number that these octets of text spell, `None` exactly if they spell no number up to 65535.
pub fn u16_of(text: &[u8]) -> Option<u16>
    ensures { Reads (IsNumberText 16) text.now result }
{
    let number = u64_of(text)?;
    u16::try_from(number).ok()
}

/// The number that these octets of text spell, `None` exactly if they spell no number below 2^64.
pub fn u64_of(text: &[u8]) -> Option<u64>
    ensures { Reads (IsNumberText 64) text.now result }
{
    if let [ten, one] = *text {
        return two_digits(ten, one);
    }
    if has_leading_zero(text) {
        return None;
    }
    value_of(text)
}

/// The number of two digits, `None` exactly if the first one is no digit but zero, or the second
/// one no digit.
#[inline(always)]
fn two_digits(ten: u8, one: u8) -> Option<u64>
    ensures { MatchOption result (¬ (IsInRange 49 57 ten × IsInRange 48 57 one))
        (λ number. IsInRange 49 57 ten × IsInRange 48 57 one × (number ≡ (ten - 48) * 10 + (one - 48))) }
{
    // So one test refuses a first zero, too.
    let tens = ten.wrapping_sub(b'1');
    let ones = one.wrapping_sub(b'0');
    if tens > 8 || ones > 9 {
        return None;
    }
    Some((u64::from(tens) + 1) * 10 + u64::from(ones))
}

/// The number before the first blank, and the octets after that. `None` exactly if there is no
/// blank, or no number below 2^64 before it. It is one pass over the octets.
#[inline]
#[tactic(auto, using(crate::proofs::Decimals::value_goes, crate::proofs::Decimals::in_range_goes))]
pub fn split_number(text: &[u8]) -> Option<(u64, &[u8])>
    ensures { MatchOption result ((number : ℕ) → HasBlank text.now → ¬ (IsNumberText 64 (before_blank text.now) number))
        (λ f. HasBlank text.now × IsNumberText 64 (before_blank text.now) f.0 × (f.1.now ≡ after_blank text.now)) }
{
    let mut value = 0;
    for index in 0..text.len() {
        let octet = text[index];
        if octet == b' ' {
            if index == 0 || has_leading_zero(&text[..index]) {
                return None;
            }
            return Some((value, &text[index + 1..]));
        }
        value = next_value(value, octet)?;
    }
    None
}

/// The same of a number up to 255.
#[inline]
pub fn split_u8(text: &[u8]) -> Option<(u8, &[u8])>
    ensures { MatchOption result ((number : ℕ) → HasBlank text.now → ¬ (IsNumberText 8 (before_blank text.now) number))
        (λ f. HasBlank text.now × IsNumberText 8 (before_blank text.now) f.0 × (f.1.now ≡ after_blank text.now)) }
{
    let (number, rest) = split_number(text)?;
    match u8::try_from(number) {
        Ok(number) => Some((number, rest)),
        Err(_) => None,
    }
}

/// Whether the text begins with a zero that more follows.
#[inline]
fn has_leading_zero(text: &[u8]) -> bool
    ensures { result ≡ (slice_index text.now 0 == 48 && nat_lt 1 (length text.now)) }
{
    if text.is_empty() {
        return false;
    }
    text[0] == b'0' && text.len() > 1
}

/// The number that digits write, `None` exactly if there is no digit, if another octet is among
/// them, or if the number isn't below 2^64. Many numbers have one digit: these are read without a
/// loop.
#[inline]
fn value_of(digits: &[u8]) -> Option<u64>
    ensures { MatchOption result (¬ (IsNumeral 10 digits.now × (digits_value 10 digits.now < 2 ^ 64)))
        (λ value. IsNumeral 10 digits.now × (digits_value 10 digits.now < 2 ^ 64) × (value ≡ digits_value 10 digits.now)) }
{
    match *digits {
        [one] => next_value(0, one),
        _ => long_value_of(digits),
    }
}

/// The same by a loop.
#[tactic(auto, using(crate::proofs::Decimals::none_goes, crate::proofs::Decimals::value_goes, crate::proofs::Decimals::in_range_goes, crate::proofs::Decimals::all_are_digits))]
fn long_value_of(digits: &[u8]) -> Option<u64>
    ensures { MatchOption result (¬ (IsNumeral 10 digits.now × (digits_value 10 digits.now < 2 ^ 64)))
        (λ value. IsNumeral 10 digits.now × (digits_value 10 digits.now < 2 ^ 64) × (value ≡ digits_value 10 digits.now)) }
{
    if digits.is_empty() {
        return None;
    }
    let mut value = 0;
    for octet in digits {
        value = next_value(value, *octet)?;
    }
    Some(value)
}

/// The number that one digit more makes of it.
#[inline(always)]
fn next_value(value: u64, octet: u8) -> Option<u64>
    ensures { MatchOption result (¬ (IsInRange 48 57 octet × (value * 10 + (octet - 48) < 2 ^ 64)))
        (λ next. IsInRange 48 57 octet × (next ≡ value * 10 + (octet - 48)) × (next < 2 ^ 64)) }
{
    let digit = octet.wrapping_sub(b'0');
    if digit > 9 {
        return None;
    }
    if value > MOST_BEFORE {
        return value.checked_mul(10)?.checked_add(u64::from(digit));
    }
    Some(value * 10 + u64::from(digit))
}
