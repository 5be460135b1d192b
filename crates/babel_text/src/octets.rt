//! Octets: two hexadecimal digits each, of either case.
//!
//! The digits of a block are read first, then each two are joined. No loop branches on a digit, so
//! that the compiler makes one step of sixteen of them.

ghost use Rattle.std.specs.Prelude.{◌≡◌, ◌+◌, ◌*◌, ◌<◌, ◌≤◌, ℕ, None, Some, length, slice_index, EachIndex, SomeIndex, IsTrue, IsFalse, MatchOption};
ghost use Rattle.hex.specs.Hex.{decode_pairs};
ghost use Rattle.babel_text.specs.Octets.{digit_number, hex_octets, octets_or_none};

use std::cmp::min;

/// What isn't a digit. Numbers have a bit above 15 together only if one of them has.
const NO_DIGIT: u8 = 255;

/// How many octets are read at a time.
const BLOCK: usize = 256;

/// Reads the octets into the front of `octets`, and returns that front. `-` stands for no octets,
/// and an empty text isn't hexadecimal. There is none if there is no room for them.
pub fn parse_octets<'a>(text: &[u8], octets: &'a mut [u8]) -> Option<&'a [u8]>
    ensures { MatchOption result (hex_octets (length octets.old) text.now ≡ None) (λ read. hex_octets (length octets.old) text.now ≡ Some read.now) }
{
    if let [b'-'] = text {
        return Some(&[]);
    }
    let count = text.len() / 2;
    if count == 0 || count > octets.len() || text.len() % 2 != 0 {
        return None;
    }
    let front = &mut octets[..count];
    if !decode(text, front) {
        return None;
    }
    Some(front)
}

/// Whether the text is hexadecimal, whose octets are then written. It is a call of its own: within
/// a larger function its loops have too few registers.
#[inline(never)]
fn decode(text: &[u8], octets: &mut [u8]) -> bool
    requires { length text.now ≡ 2 * length octets.old }
    ensures read { IsTrue result → octets_or_none (decode_pairs 0 text.now) ≡ Some octets.new }
    ensures refused { IsFalse result → octets_or_none (decode_pairs 0 text.now) ≡ None }
{
    let mut room = [0; 2 * BLOCK];
    // All digits are tested at once, which takes less than a test of each.
    let mut seen = 0;
    let mut start = 0;
    while start < octets.len() {
        let count = block_len(octets.len() - start);
        let values = &mut room[..2 * count];
        seen |= read_digits(text, 2 * start, values);
        join_digits(values, octets, start);
        start += count;
    }
    seen < 16
}

/// How many octets are read next, of those that are left.
#[inline(always)]
fn block_len(left: usize) -> usize
    ensures within { (result ≤ left) × (result ≤ 256) }
    ensures more { 0 < left → 0 < result }
{
    min(left, BLOCK)
}

/// Reads the digits from this index of the text on, as many as there is room for. What is returned
/// is 16 or more if one of them is no digit.
#[inline(always)]
fn read_digits(text: &[u8], start: usize, values: &mut [u8]) -> u8
    requires text { start + length values.old ≤ length text.now }
    ensures length { length values.new ≡ length values.old }
    ensures values { EachIndex values.new (λ i. slice_index values.new i ≡ digit_number (slice_index text.now (start + i))) }
    ensures digits { result < 16 → EachIndex values.new (λ i. slice_index values.new i < 16) }
    ensures refused { 16 ≤ result → SomeIndex values.new (λ i. 16 ≤ slice_index values.new i) }
{
    let mut seen = 0;
    for index in 0..values.len() {
        let value = digit(text[start + index]);
        values[index] = value;
        seen |= value;
    }
    seen
}

/// Joins each two digits to an octet, which are written from this index on.
#[inline(always)]
fn join_digits(values: &[u8], octets: &mut [u8], start: usize)
    requires room { 2 * start + length values.now ≤ 2 * length octets.old }
    ensures length { length octets.new ≡ length octets.old }
    ensures before { (i : ℕ) → i < start → slice_index octets.new i ≡ slice_index octets.old i }
    ensures joined { (i : ℕ) → 2 * i + 1 < length values.now → slice_index values.now (2 * i) < 16 → slice_index values.now (2 * i + 1) < 16 → slice_index octets.new (start + i) ≡ 16 * slice_index values.now (2 * i) + slice_index values.now (2 * i + 1) }
{
    for index in 0..values.len() / 2 {
        octets[start + index] = join(values[2 * index], values[2 * index + 1]);
    }
}

/// The octet of two digits. The product has the first digit 16 times and the second in its upper
/// half: a step of vectors can add the neighbours in a word that way.
#[inline(always)]
fn join(high: u8, low: u8) -> u8
    ensures { high < 16 → low < 16 → result ≡ 16 * high + low }
{
    let word = u16::from(high) + 256 * u16::from(low);
    (word.wrapping_mul(0x1001) / 256) as u8
}

/// The value of the digit, or `NO_DIGIT`.
#[inline(always)]
fn digit(octet: u8) -> u8
    ensures { result ≡ digit_number octet }
{
    let decimal = octet.wrapping_sub(b'0');
    if decimal < 10 {
        return decimal;
    }
    let letter = (octet | 0x20).wrapping_sub(b'a');
    if letter < 6 {
        return letter + 10;
    }
    NO_DIGIT
}
