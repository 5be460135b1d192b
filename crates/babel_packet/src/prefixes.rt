//! Prefixes in a payload (RFC 8966, sections 4.1.5 and 4.6.9).

ghost use Rattle.std.specs.Prelude.{◌≡◌, ◌≤◌, ◌<◌, ◌+◌, ◌-◌, ◌*◌, ◌/◌, ◌%◌, ◌++◌, ℕ, length, map, take, drop, slice_index, replicate, IsTrue};
ghost use Rattle.std.specs.Int.{from_be_bytes, w64};
ghost use Rattle.std.specs.List.{range_with_len};
ghost use Rattle.babel_value.specs.Prefixes.{cleared};
ghost use Rattle.babel_message.specs.Layout as layout;
ghost use Rattle.babel_packet.specs.Prefixes as prefixes;
ghost use Rattle.babel_packet.specs.Prefixes.{octets_of, bits_of, prefix_octet};

use babel_value::keep_bits;

/// How many octets of a prefix are moved as one number.
const WORD_LEN: usize = 8;

/// How many octets a prefix of this length takes.
#[inline]
pub(crate) fn octets_of(bits: u8) -> usize
    ensures value { result ≡ prefixes.octets_of bits }
    ensures small { result ≤ 32 }
{
    (bits as usize + 7) / 8
}

/// Whether the length isn't greater than an address of `size` octets is wide, and the octets that
/// aren't omitted are in the payload from offset `at` on.
#[inline]
#[tactic(auto, unfolding(crate::specs::Prefixes::is_whole))]
pub(crate) fn is_whole(size: usize, omitted: u8, bits: u8, at: usize, payload: &[u8]) -> bool
    requires size { size ≤ layout.ipv6_len }
    requires at { at ≤ layout.seqno_request_len }
    ensures value { result ≡ prefixes.is_whole size omitted bits at payload.now }
    ensures short { IsTrue result → bits ≤ bits_of size }
    ensures there { IsTrue result → at + (octets_of bits - omitted) ≤ length payload.now }
{
    let written = octets_of(bits).saturating_sub(omitted as usize);
    bits as usize <= 8 * size && at + written <= payload.len()
}

/// The octets of the prefix's address: the omitted ones from `default`, the others from the
/// payload.
///
/// Most prefixes have at most 64 bits: they are one number. The others, and those in a payload with
/// too few octets before them, are copied.
#[inline(always)]
#[tactic(auto, unfolding(crate::specs::Prefixes::prefix_octets))]
pub(crate) fn prefix_octets<const N: usize>(
    default: [u8; N],
    omitted: u8,
    bits: u8,
    at: usize,
    payload: &[u8],
) -> [u8; N]
    requires short { bits ≤ bits_of N }
    requires there { at + (octets_of bits - omitted) ≤ length payload.now }
    requires at { at ≤ layout.seqno_request_len }
    ensures value { result ≡ prefixes.prefix_octets N default.entry omitted bits at payload.now }
    ensures clear { cleared bits result ≡ result }
{
    let full = octets_of(bits);
    if at < WORD_LEN || full > WORD_LEN || omitted as usize >= full {
        return any_octets(default, omitted, bits, at, payload);
    }
    resized(first_octets(resized(default), omitted, bits, at, payload))
}

/// As many of the octets, or zeros after them.
#[inline(always)]
fn resized<const N: usize, const M: usize>(octets: [u8; N]) -> [u8; M]
    ensures { (j : ℕ) → j < M → slice_index result j ≡ slice_index octets.entry j }
{
    let size = N.min(M);
    let mut resized = [0; M];
    resized[..size].copy_from_slice(&octets[..size]);
    resized
}

/// The octets of a prefix of at most 64 bits, of which one at least is written. The eight octets
/// that end with the written ones are read as one number, which is shifted to where they belong.
#[inline(always)]
fn first_octets(
    default: [u8; WORD_LEN],
    omitted: u8,
    bits: u8,
    at: usize,
    payload: &[u8],
) -> [u8; WORD_LEN]
    requires short { octets_of bits ≤ WORD_LEN }
    requires written { omitted < octets_of bits }
    requires there { at + (octets_of bits - omitted) ≤ length payload.now }
    requires at { (WORD_LEN ≤ at) × (at ≤ layout.seqno_request_len) }
    ensures { result ≡ prefixes.prefix_octets WORD_LEN default omitted bits at payload.now }
{
    let written = octets_of(bits) - omitted as usize;
    let end = at + written;
    let mut word = [0; WORD_LEN];
    word.copy_from_slice(&payload[end - WORD_LEN..end]);
    let moved = u64::from_be_bytes(word) << (8 * (WORD_LEN - written));
    let number = front(default, omitted) | (moved >> (8 * omitted as usize));
    let past = 8 * WORD_LEN - bits as usize;
    ((number >> past) << past).to_be_bytes()
}

/// The first octets as the first ones of a number, whose others are zeros.
#[inline(always)]
fn front(octets: [u8; WORD_LEN], kept: u8) -> u64
    requires { kept < WORD_LEN }
    ensures { result ≡ from_be_bytes w64 (take kept octets ++ replicate (WORD_LEN - kept) 0) }
{
    if kept == 0 {
        return 0;
    }
    let past = 8 * (WORD_LEN - kept as usize);
    (u64::from_be_bytes(octets) >> past) << past
}

/// The octets of any prefix, copied.
#[inline(never)]
#[tactic(auto, unfolding(crate::specs::Prefixes::prefix_octets))]
fn any_octets<const N: usize>(
    default: [u8; N],
    omitted: u8,
    bits: u8,
    at: usize,
    payload: &[u8],
) -> [u8; N]
    requires short { bits ≤ bits_of N }
    requires there { at + (octets_of bits - omitted) ≤ length payload.now }
    requires at { at ≤ layout.seqno_request_len }
    ensures { result ≡ prefixes.prefix_octets N default.entry omitted bits at payload.now }
{
    clear_last(spread(default, omitted, bits, at, payload), bits)
}

/// The same, with the bits past the length in the last octet still there.
#[inline]
fn spread<const N: usize>(
    default: [u8; N],
    omitted: u8,
    bits: u8,
    at: usize,
    payload: &[u8],
) -> [u8; N]
    requires short { bits ≤ bits_of N }
    requires there { at + (octets_of bits - omitted) ≤ length payload.now }
    requires at { at ≤ layout.seqno_request_len }
    ensures value { result ≡ map (prefix_octet default.entry omitted bits at payload.now) (range_with_len 0 N) }
    ensures zeros { (j : ℕ) → octets_of bits ≤ j → slice_index result j ≡ 0 }
{
    let full = octets_of(bits);
    let kept = (omitted as usize).min(full);
    let written = &payload[at..at + (full - kept)];
    let mut octets = [0; N];
    put(&mut octets[..], &default[..], kept, written);
    octets
}

/// Writes the first `kept` octets of the default prefix, and then those that are written in the
/// payload.
#[inline(always)]
fn put(octets: &mut [u8], default: &[u8], kept: usize, written: &[u8])
    requires default { kept ≤ length default.now }
    requires room { kept + length written.now ≤ length octets.old }
    ensures octets { octets.new ≡ take kept default.now ++ (written.now ++ drop (kept + length written.now) octets.old) }
    ensures default { kept ≤ length default.now }
{
    copy(&mut octets[..kept], &default[..kept]);
    copy(&mut octets[kept..kept + written.len()], written);
}

/// Copies octets. Those of a whole IPv6 address are known to the compiler, so that it makes a move
/// of them and no call.
#[inline(always)]
fn copy(to: &mut [u8], from: &[u8])
    requires { length to.old ≡ length from.now }
    ensures { to.new ≡ from.now }
{
    match from.len() {
        0 => {}
        16 => to.copy_from_slice(from),
        _ => to.copy_from_slice(from),
    }
}

/// Clears the bits past the length, which are in one octet alone.
#[inline]
fn clear_last<const N: usize>(octets: [u8; N], bits: u8) -> [u8; N]
    requires short { bits ≤ bits_of N }
    requires zeros { (j : ℕ) → octets_of bits ≤ j → slice_index octets j ≡ 0 }
    ensures { result ≡ cleared bits octets.entry }
{
    if bits % 8 == 0 {
        return octets;
    }
    let last = (bits / 8) as usize;
    let mut octets = octets;
    octets[last] = keep_bits(octets[last], bits % 8);
    octets
}
