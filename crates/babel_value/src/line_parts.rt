//! The parts of a line of text. Each is written into room that the caller has, after its first
//! `len` octets, and the number of octets with it is returned: so a processor has that number in a
//! register while a line is put together, and need not read it back from memory after each octet.

ghost use Rattle.std.specs.Prelude.{if◌then◌else◌, ◌≡◌, ◌+◌, ◌*◌, ◌/◌, ◌%◌, ◌<◌, ◌≤◌, [], ◌∷◌, ◌++◌, false, codes, length, nat_lt, take};
ghost use Rattle.std.specs.Fmt.{decimal, digits, digit_glyph};
ghost use Rattle.hex.specs.Hex.{encode_lower};
ghost use Rattle.babel_value.specs.Texts.{addr_text, ipv4_text, ipv6_text, prefix_text, router_text};
ghost use Rattle.babel_value.specs.Lines.{half_text, last_digit, last_hex_digit};

use crate::orders::{first_half, last_half};
use crate::{Addr, Prefix, RouterId};
use itoa::Buffer;

/// The hexadecimal digits, in lower case.
const HEX_DIGITS: [u8; 16] = *b"0123456789abcdef";

/// Writes octets.
#[inline(always)]
pub fn put_octets(line: &mut [u8], len: usize, octets: &[u8]) -> usize
    requires room { len + length octets.now ≤ length line.old }
    ensures text { take result line.new ≡ take len line.old ++ octets.now }
    ensures len { result ≡ len + length octets.now }
{
    let end = len + octets.len();
    line[len..end].copy_from_slice(octets);
    end
}

/// Writes a text.
#[inline(always)]
pub fn put_str(line: &mut [u8], len: usize, text: &str) -> usize
    requires room { len + length text.now ≤ length line.old }
    ensures text { take result line.new ≡ take len line.old ++ text.now }
    ensures len { result ≡ len + length text.now }
{
    put_octets(line, len, text.as_bytes())
}

/// Writes an octet.
#[inline(always)]
pub fn put_octet(line: &mut [u8], len: usize, octet: u8) -> usize
    requires room { len + 1 ≤ length line.old }
    ensures text { take result line.new ≡ take len line.old ++ octet ∷ [] }
    ensures len { result ≡ len + 1 }
{
    line[len] = octet;
    len + 1
}

/// Writes an octet, which counts unless the number is 0. It is written in any case, so that nothing
/// branches on it.
#[inline(always)]
fn put_unless_zero(line: &mut [u8], len: usize, number: u16, octet: u8) -> usize
    requires room { len + 1 ≤ length line.old }
    ensures text { take result line.new ≡ take len line.old ++ (if nat_lt 0 number then octet ∷ [] else []) }
    ensures short { result ≤ len + 1 }
{
    line[len] = octet;
    len + usize::from(number > 0)
}

/// Writes a number in decimal.
pub fn put_u64(line: &mut [u8], len: usize, number: u64) -> usize
    requires room { len + 20 ≤ length line.old }
    ensures text { take result line.new ≡ take len line.old ++ decimal number }
    ensures short { result ≤ len + 20 }
{
    match u16::try_from(number) {
        Ok(number) => put_u16(line, len, number),
        Err(_) => put_str(line, len, Buffer::new().format(number)),
    }
}

/// Writes a number in decimal.
pub fn put_u16(line: &mut [u8], len: usize, number: u16) -> usize
    requires room { len + 5 ≤ length line.old }
    ensures text { take result line.new ≡ take len line.old ++ decimal number }
    ensures short { result ≤ len + 5 }
{
    // Most numbers have few digits.
    if number < 10 {
        return put_ones(line, len, number);
    }
    if number < 100 {
        return put_two(line, len, number);
    }
    if number < 1000 {
        return put_three(line, len, number);
    }
    let len = put_digit(line, len, number / 10_000);
    let len = put_digit(line, len, number / 1000);
    let len = put_digit(line, len, number / 100);
    let len = put_digit(line, len, number / 10);
    put_ones(line, len, number)
}

/// Writes a number in decimal.
#[inline(always)]
pub fn put_u8(line: &mut [u8], len: usize, number: u8) -> usize
    requires room { len + 3 ≤ length line.old }
    ensures text { take result line.new ≡ take len line.old ++ decimal number }
    ensures short { result ≤ len + 3 }
{
    let number = u16::from(number);
    if number < 10 {
        return put_ones(line, len, number);
    }
    if number < 100 {
        return put_two(line, len, number);
    }
    put_three(line, len, number)
}

/// Writes a text, such as the name of a field, and a number in decimal.
#[inline(always)]
pub fn put_field(line: &mut [u8], len: usize, name: &str, number: u16) -> usize
    requires room { len + length name.now + 5 ≤ length line.old }
    ensures text { take result line.new ≡ take len line.old ++ name.now ++ decimal number }
    ensures short { result ≤ len + length name.now + 5 }
{
    let len = put_str(line, len, name);
    put_u16(line, len, number)
}

/// Writes a number of two digits in decimal.
#[inline(always)]
fn put_two(line: &mut [u8], len: usize, number: u16) -> usize
    requires two { (10 ≤ number) × (number < 100) }
    requires room { len + 2 ≤ length line.old }
    ensures text { take result line.new ≡ take len line.old ++ decimal number }
    ensures short { result ≤ len + 2 }
{
    let len = put_ones(line, len, number / 10);
    put_ones(line, len, number)
}

/// Writes a number of three digits in decimal.
#[inline(always)]
fn put_three(line: &mut [u8], len: usize, number: u16) -> usize
    requires three { (100 ≤ number) × (number < 1000) }
    requires room { len + 3 ≤ length line.old }
    ensures text { take result line.new ≡ take len line.old ++ decimal number }
    ensures short { result ≤ len + 3 }
{
    let len = put_ones(line, len, number / 100);
    let len = put_ones(line, len, number / 10);
    put_ones(line, len, number)
}

/// Writes the last decimal digit of a number, but nothing if the number is 0.
#[inline(always)]
fn put_digit(line: &mut [u8], len: usize, number: u16) -> usize
    requires room { len + 1 ≤ length line.old }
    ensures text { take result line.new ≡ take len line.old ++ last_digit number }
    ensures short { result ≤ len + 1 }
{
    put_unless_zero(line, len, number, b'0' + (number % 10) as u8)
}

/// Writes the last decimal digit of a number.
#[inline(always)]
fn put_ones(line: &mut [u8], len: usize, number: u16) -> usize
    requires room { len + 1 ≤ length line.old }
    ensures text { take result line.new ≡ take len line.old ++ (48 + number % 10) ∷ [] }
    ensures len { result ≡ len + 1 }
{
    put_octet(line, len, b'0' + (number % 10) as u8)
}

/// Writes a number in hexadecimal, in lower case.
#[inline(always)]
fn put_hex(line: &mut [u8], len: usize, number: u16) -> usize
    requires room { len + 4 ≤ length line.old }
    ensures text { take result line.new ≡ take len line.old ++ digits 16 false number }
    ensures short { result ≤ len + 4 }
{
    if number == 0 {
        return put_str(line, len, "0");
    }
    let len = put_hex_digit(line, len, number / 0x1000);
    let len = put_hex_digit(line, len, number / 0x100);
    let len = put_hex_digit(line, len, number / 0x10);
    put_octet(line, len, hex_digit(number % 16))
}

/// Writes the last hexadecimal digit of a number, but nothing if the number is 0.
#[inline(always)]
fn put_hex_digit(line: &mut [u8], len: usize, number: u16) -> usize
    requires room { len + 1 ≤ length line.old }
    ensures text { take result line.new ≡ take len line.old ++ last_hex_digit number }
    ensures short { result ≤ len + 1 }
{
    put_unless_zero(line, len, number, hex_digit(number % 16))
}

/// Writes a colon and a group that is zero.
#[inline(always)]
fn put_zero(line: &mut [u8], len: usize) -> usize
    requires room { len + 2 ≤ length line.old }
    ensures text { take result line.new ≡ take len line.old ++ codes ":" ++ digits 16 false 0 }
    ensures len { result ≡ len + 2 }
{
    let len = put_str(line, len, ":");
    put_str(line, len, "0")
}

/// Writes the four groups of half an IPv6 address. Zeros after the first, which many have, need not
/// be written one by one.
fn put_half(line: &mut [u8], len: usize, half: u64) -> usize
    requires room { len + 19 ≤ length line.old }
    ensures text { take result line.new ≡ take len line.old ++ half_text half }
    ensures short { result ≤ len + 19 }
{
    let len = put_hex(line, len, (half >> 48) as u16);
    if half % (1 << 48) == 0 {
        let len = put_zero(line, len);
        let len = put_zero(line, len);
        return put_zero(line, len);
    }
    let len = put_str(line, len, ":");
    let len = put_hex(line, len, ((half >> 32) % 0x1_0000) as u16);
    let len = put_str(line, len, ":");
    let len = put_hex(line, len, ((half >> 16) % 0x1_0000) as u16);
    let len = put_str(line, len, ":");
    put_hex(line, len, (half % 0x1_0000) as u16)
}

/// Writes four decimal numbers with points.
fn put_ipv4(line: &mut [u8], len: usize, octets: [u8; 4]) -> usize
    requires room { len + 23 ≤ length line.old }
    ensures text { take result line.new ≡ take len line.old ++ ipv4_text octets }
    ensures short { result ≤ len + 23 }
{
    let [a, b, c, d] = octets;
    let len = put_u8(line, len, a);
    let len = put_str(line, len, ".");
    let len = put_u8(line, len, b);
    let len = put_str(line, len, ".");
    let len = put_u8(line, len, c);
    let len = put_str(line, len, ".");
    put_u8(line, len, d)
}

/// Writes eight groups with colons.
#[inline]
fn put_ipv6(line: &mut [u8], len: usize, octets: &[u8; 16]) -> usize
    requires room { len + 39 ≤ length line.old }
    ensures text { take result line.new ≡ take len line.old ++ ipv6_text octets.now }
    ensures short { result ≤ len + 39 }
{
    let len = put_half(line, len, u64::from_be_bytes(first_half(octets)));
    let len = put_str(line, len, ":");
    put_half(line, len, u64::from_be_bytes(last_half(octets)))
}

/// Writes an address.
pub fn put_addr(line: &mut [u8], len: usize, addr: &Addr) -> usize
    requires room { len + 39 ≤ length line.old }
    ensures text { take result line.new ≡ take len line.old ++ addr_text addr.now }
    ensures short { result ≤ len + 39 }
{
    match addr {
        Addr::V4(octets) => put_ipv4(line, len, *octets),
        Addr::V6(octets) => put_ipv6(line, len, octets),
    }
}

/// Writes a prefix.
pub fn put_prefix(line: &mut [u8], len: usize, prefix: &Prefix) -> usize
    requires room { len + 45 ≤ length line.old }
    ensures text { take result line.new ≡ take len line.old ++ prefix_text prefix.now }
    ensures short { result ≤ len + 45 }
{
    let len = put_addr(line, len, prefix.addr_ref());
    let len = put_str(line, len, "/");
    put_u8(line, len, prefix.length())
}

/// Writes a router-id.
pub fn put_router_id(line: &mut [u8], len: usize, router: &RouterId) -> usize
    requires room { len + 16 ≤ length line.old }
    ensures text { take result line.new ≡ take len line.old ++ router_text router.now }
    ensures short { result ≤ len + 16 }
{
    put_hex_octets(line, len, router.octets_ref())
}

/// Writes eight octets as two digits each.
#[inline]
fn put_hex_octets(line: &mut [u8], len: usize, octets: &[u8; 8]) -> usize
    requires room { len + 16 ≤ length line.old }
    ensures text { take result line.new ≡ take len line.old ++ encode_lower octets.now }
    ensures short { result ≤ len + 16 }
{
    let mut digits = [0; 16];
    for index in 0..octets.len() {
        digits[2 * index] = computed_hex_digit(octets[index] / 16);
        digits[2 * index + 1] = computed_hex_digit(octets[index] % 16);
    }
    put_octets(line, len, &digits)
}

/// The hexadecimal digit, in lower case, by a look-up: one takes a step.
#[inline(always)]
fn hex_digit(digit: u16) -> u8
    requires { digit < 16 }
    ensures { result ≡ digit_glyph false digit }
{
    HEX_DIGITS[digit as usize]
}

/// The same, computed: sixteen take as many steps as one.
#[inline(always)]
fn computed_hex_digit(digit: u8) -> u8
    requires { digit < 16 }
    ensures { result ≡ digit_glyph false digit }
{
    if digit < 10 {
        b'0' + digit
    } else {
        b'a' - 10 + digit
    }
}
