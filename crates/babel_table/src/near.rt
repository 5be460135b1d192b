//! Searches that begin near the index at which the last one ended. If the sought keys rise, and
//! each is near the last one, they are one walk over the table. The steps of a walk double, and
//! what the last one passed over is searched. So a key that is near is found in few comparisons,
//! and one that is far in at most some twice as many as a search of the whole table takes.

ghost use Rattle.std.specs.Prelude.{◌≡◌, ◌↔◌, true, ◌+◌, ◌^◌, ◌≤◌, ◌<◌, take, drop, not, length, IfOk, IsErr, OnOk, OnErr, IsSome, IsNone, IsTrue, IsFalse};
ghost use Rattle.std.specs.List.{list_all};
ghost use Rattle.std.specs.FinMap.{find, put};
ghost use Rattle.babel_table.specs.Places.{IsAt, IsGap, are_lesser, are_greater};

use crate::bounds::places_between;
use crate::{Bound, Change, Full, Key, Steps, Table, places_below};
use std::cmp::Ordering;
use std::marker::Brand;
use std::sync::ledger::{Blank, Ledger};

/// The index so many places after another one, or the last index.
#[inline(always)]
fn index_on(index: usize, places: usize, len: usize) -> usize
    requires { index < len }
    ensures on { index ≤ result }
    ensures within { result < len }
{
    if places < len - index {
        index + places
    } else {
        len - 1
    }
}

/// The index before this one, and so many places before that, or the first index.
#[inline(always)]
fn index_back(index: usize, places: usize) -> usize
    requires { 0 < index }
    ensures before { result < index }
    ensures small { result + 1 < 2 ^ 64 }
{
    (index - 1).saturating_sub(places)
}

/// The first step of a walk. A step passes over a quarter of its number of places, and each number
/// is twice the one before it: the first two steps pass over none, the next ones over 1, 2, 4 and
/// so on. So what is one or two places away is found as by a walk from entry to entry.
const FIRST_STEP: usize = 1;

/// The step after this one.
#[inline(always)]
fn next_step(step: usize) -> usize {
    step.wrapping_mul(2)
}

/// The order of two keys. The step isn't counted. It is compiled into each caller: as a call it had
/// a copy made of each entry whose key it looked at.
#[inline(always)]
pub(crate) fn order_of<K: Key>(key: &K, other: &K) -> Ordering
    ensures { result ≡ K.order key.now other.now }
{
    order_on::<Brand, K>(key, other, Blank::new(1))
}

#[inline(always)]
fn order_on<L: Ledger, K: Key>(key: &K, other: &K, blank: Blank) -> Ordering
    requires name { blank.name ≡ L.name }
    requires parts { blank.parts ≡ L.parts }
    requires several { 0 < blank.parts }
    ensures { result ≡ K.order key.now other.now }
{
    let mut steps = Steps::<L>::open(blank);
    key.compare(other, &mut steps)
}

/// How many entries have a key below the bound, as `places_below`. It walks on from the index
/// `near` if the entry there is below, and back otherwise.
#[inline(always)]
pub fn places_below_near<K: Key, V: Copy, T: Table<K, V>, B: Bound<K>>(
    table: &T,
    near: usize,
    bound: &B,
) -> usize
    ensures within { result ≤ length (T.entries table.now) }
    ensures below { list_all (λ e. B.is_below bound.now e.0) (take result (T.entries table.now)) ≡ true }
    ensures above { list_all (λ e. not (B.is_below bound.now e.0)) (drop result (T.entries table.now)) ≡ true }
{
    match table.at(near) {
        Some(entry) if bound.is_below(&entry.0) => places_below_from(table, near, bound),
        Some(_) => places_below_back(table, near, bound),
        None => places_below(table, bound),
    }
}

/// The same from an index back whose key isn't below the bound. Mostly the one before it is.
#[inline(always)]
fn places_below_back<K: Key, V: Copy, T: Table<K, V>, B: Bound<K>>(
    table: &T,
    near: usize,
    bound: &B,
) -> usize
    requires within { near < length (T.entries table.now) }
    requires above { list_all (λ e. not (B.is_below bound.now e.0)) (drop near (T.entries table.now)) ≡ true }
    ensures within { result ≤ length (T.entries table.now) }
    ensures below { list_all (λ e. B.is_below bound.now e.0) (take result (T.entries table.now)) ≡ true }
    ensures above { list_all (λ e. not (B.is_below bound.now e.0)) (drop result (T.entries table.now)) ≡ true }
{
    if near == 0 {
        return 0;
    }
    let Some(entry) = table.at(near - 1) else {
        return places_below(table, bound);
    };
    if bound.is_below(&entry.0) {
        return near;
    }
    places_below_until(table, near - 1, bound)
}

/// The same by a walk back.
#[inline(never)]
fn places_below_until<K: Key, V: Copy, T: Table<K, V>, B: Bound<K>>(
    table: &T,
    near: usize,
    bound: &B,
) -> usize
    requires within { near < length (T.entries table.now) }
    requires above { list_all (λ e. not (B.is_below bound.now e.0)) (drop near (T.entries table.now)) ≡ true }
    ensures within { result ≤ length (T.entries table.now) }
    ensures below { list_all (λ e. B.is_below bound.now e.0) (take result (T.entries table.now)) ≡ true }
    ensures above { list_all (λ e. not (B.is_below bound.now e.0)) (drop result (T.entries table.now)) ≡ true }
{
    let mut high = near;
    let mut step = FIRST_STEP;
    while high > 0 {
        let place = index_back(high, step / 4);
        let Some(entry) = table.at(place) else {
            return places_below(table, bound);
        };
        if bound.is_below(&entry.0) {
            return places_between(table, bound, place + 1, high);
        }
        high = place;
        step = next_step(step);
    }
    0
}

/// The same by a walk from an index on whose key is below the bound.
fn places_below_from<K: Key, V: Copy, T: Table<K, V>, B: Bound<K>>(
    table: &T,
    near: usize,
    bound: &B,
) -> usize
    requires within { near < length (T.entries table.now) }
    requires below { list_all (λ e. B.is_below bound.now e.0) (take (near + 1) (T.entries table.now)) ≡ true }
    ensures within { result ≤ length (T.entries table.now) }
    ensures below { list_all (λ e. B.is_below bound.now e.0) (take result (T.entries table.now)) ≡ true }
    ensures above { list_all (λ e. not (B.is_below bound.now e.0)) (drop result (T.entries table.now)) ≡ true }
{
    let len = table.len();
    let mut low = near + 1;
    let mut step = FIRST_STEP;
    while low < len {
        let place = index_on(low, step / 4, len);
        let Some(entry) = table.at(place) else {
            return places_below(table, bound);
        };
        if !bound.is_below(&entry.0) {
            return places_between(table, bound, low, place);
        }
        low = place + 1;
        step = next_step(step);
    }
    len
}

/// The value at the key. `near` becomes the index of the key, or the one at which it would be
/// inserted.
#[inline(always)]
pub fn find_near<K: Key, V: Copy, T: Table<K, V>>(table: &T, near: &mut usize, key: &K) -> Option<V>
    ensures value { result ≡ find K.order key.now (T.entries table.now) }
    ensures at { IsSome result → IsAt key.now (T.entries table.now) near.new }
    ensures gap { IsNone result → IsGap K.order key.now (T.entries table.now) near.new }
{
    if !seek_near(table, near, key) {
        return None;
    }
    let entry = table.at(*near)?;
    Some(entry.1)
}

/// Stores the value at the key. `near` becomes the index of the key: keys that rise are stored in
/// one pass.
#[inline(always)]
pub fn put_near<K: Key, V: Copy, T: Table<K, V>>(table: &mut T, near: &mut usize, key: K, value: V)
    requires room { length (T.entries table.old) < T.room table.old }
    ensures entries { T.entries table.new ≡ put K.order key value (T.entries table.old) }
    ensures room { T.room table.new ≡ T.room table.old }
{
    if seek_near(table, near, &key) {
        table.replace(*near, key, value);
    } else {
        table.insert(*near, key, value);
    }
}

/// Stores what the change makes of the value at the key, and returns the value from before. `near`
/// becomes the index of the key. `Full` if and only if the key is new and the table is full.
#[inline(always)]
pub fn change_near<K: Key, V: Copy, T: Table<K, V>, C: Change<V>>(
    table: &mut T,
    near: &mut usize,
    key: K,
    change: &C,
) -> Result<Option<V>, Full>
    ensures full { IsErr result ↔ (IsNone (find K.order key (T.entries table.old)) × (length (T.entries table.old) ≡ T.room table.old)) }
    ensures ok { OnOk result (T.entries table.new ≡ put K.order key (C.changed change.now (find K.order key (T.entries table.old))) (T.entries table.old)) }
    ensures before { IfOk result (λ before. before ≡ find K.order key (T.entries table.old)) }
    ensures err { OnErr result (T.entries table.new ≡ T.entries table.old) }
    ensures room { T.room table.new ≡ T.room table.old }
{
    let before = find_near(table, near, &key);
    let value = change.changed(before);
    if before.is_some() {
        table.replace(*near, key, value);
        return Ok(before);
    }
    // A new key is rare, and its place is searched for again.
    match table.put(key, value) {
        Ok(()) => Ok(None),
        Err(full) => Err(full),
    }
}

/// Whether the table has the key. `near` becomes the index of the key, or the one at which it would
/// be inserted.
#[inline(always)]
pub fn seek_near<K: Key, V: Copy, T: Table<K, V>>(table: &T, near: &mut usize, key: &K) -> bool
    ensures at { IsTrue result → IsAt key.now (T.entries table.now) near.new }
    ensures gap { IsFalse result → IsGap K.order key.now (T.entries table.now) near.new }
{
    let Some(entry) = table.at(*near) else {
        let len = table.len();
        *near = len;
        if len == 0 {
            return false;
        }
        return seek_past_all(table, near, key);
    };
    match order_of(key, &entry.0) {
        Ordering::Less => back_for(table, near, key),
        Ordering::Equal => true,
        Ordering::Greater => walk_for(table, near, key),
    }
}

/// The same where the index is the one after the last entry. The keys that are sought there mostly
/// are past it too: those of a full table that refuses them, or of one that is filled in their
/// order.
#[inline(never)]
fn seek_past_all<K: Key, V: Copy, T: Table<K, V>>(table: &T, near: &mut usize, key: &K) -> bool
    requires end { near.old ≡ length (T.entries table.now) }
    requires entries { 0 < near.old }
    ensures at { IsTrue result → IsAt key.now (T.entries table.now) near.new }
    ensures gap { IsFalse result → IsGap K.order key.now (T.entries table.now) near.new }
{
    let Some(last) = table.at(*near - 1) else {
        return search_for(table, near, key);
    };
    match order_of(key, &last.0) {
        Ordering::Greater => false,
        _ => search_from_first(table, near, key),
    }
}

/// The same by a search. Keys that are sought in turns begin again with the first one.
fn search_from_first<K: Key, V: Copy, T: Table<K, V>>(table: &T, near: &mut usize, key: &K) -> bool
    ensures at { IsTrue result → IsAt key.now (T.entries table.now) near.new }
    ensures gap { IsFalse result → IsGap K.order key.now (T.entries table.now) near.new }
{
    let Some(first) = table.at(0) else {
        return search_for(table, near, key);
    };
    match order_of(key, &first.0) {
        Ordering::Equal => {
            *near = 0;
            true
        }
        _ => search_for(table, near, key),
    }
}

/// The same by a search. It and both walks are calls: few look-ups come to them, and those that
/// don't need the registers.
fn search_for<K: Key, V: Copy, T: Table<K, V>>(table: &T, near: &mut usize, key: &K) -> bool
    ensures at { IsTrue result → IsAt key.now (T.entries table.now) near.new }
    ensures gap { IsFalse result → IsGap K.order key.now (T.entries table.now) near.new }
{
    let len = table.len();
    search_between(table, near, key, 0, len)
}

/// The same by a search between two indices: the keys before the first one are lesser, and those
/// from the second one on are greater. Mostly nothing is between them.
#[inline(always)]
fn search_between<K: Key, V: Copy, T: Table<K, V>>(
    table: &T,
    near: &mut usize,
    key: &K,
    from: usize,
    to: usize,
) -> bool
    requires rising { from ≤ to }
    requires within { to ≤ length (T.entries table.now) }
    requires lesser { are_lesser K.order key.now (take from (T.entries table.now)) ≡ true }
    requires greater { are_greater K.order key.now (drop to (T.entries table.now)) ≡ true }
    ensures at { IsTrue result → IsAt key.now (T.entries table.now) near.new }
    ensures gap { IsFalse result → IsGap K.order key.now (T.entries table.now) near.new }
{
    if from == to {
        *near = to;
        return false;
    }
    search_keys(table, near, key, from, to)
}

#[inline(never)]
fn search_keys<K: Key, V: Copy, T: Table<K, V>>(
    table: &T,
    near: &mut usize,
    key: &K,
    from: usize,
    to: usize,
) -> bool
    requires rising { from ≤ to }
    requires within { to ≤ length (T.entries table.now) }
    requires lesser { are_lesser K.order key.now (take from (T.entries table.now)) ≡ true }
    requires greater { are_greater K.order key.now (drop to (T.entries table.now)) ≡ true }
    ensures at { IsTrue result → IsAt key.now (T.entries table.now) near.new }
    ensures gap { IsFalse result → IsGap K.order key.now (T.entries table.now) near.new }
{
    let mut low = from;
    let mut high = to;
    while low < high {
        let middle = low + (high - low) / 2;
        let Some(entry) = table.at(middle) else {
            high = middle;
            continue;
        };
        match order_of(key, &entry.0) {
            Ordering::Less => high = middle,
            Ordering::Equal => {
                *near = middle;
                return true;
            }
            Ordering::Greater => low = middle + 1,
        }
    }
    *near = low;
    false
}

/// The same by a walk from an index on whose key is lesser.
#[inline(never)]
fn walk_for<K: Key, V: Copy, T: Table<K, V>>(table: &T, near: &mut usize, key: &K) -> bool
    requires within { near.old < length (T.entries table.now) }
    requires lesser { are_lesser K.order key.now (take (near.old + 1) (T.entries table.now)) ≡ true }
    ensures at { IsTrue result → IsAt key.now (T.entries table.now) near.new }
    ensures gap { IsFalse result → IsGap K.order key.now (T.entries table.now) near.new }
{
    let len = table.len();
    let mut low = *near + 1;
    let mut step = FIRST_STEP;
    while low < len {
        let place = index_on(low, step / 4, len);
        let Some(entry) = table.at(place) else {
            return search_for(table, near, key);
        };
        match order_of(key, &entry.0) {
            Ordering::Less => return search_between(table, near, key, low, place),
            Ordering::Equal => {
                *near = place;
                return true;
            }
            Ordering::Greater => {
                low = place + 1;
                step = next_step(step);
            }
        }
    }
    *near = len;
    false
}

/// The same from an index back whose key is greater. Mostly the key before it is lesser, or is the
/// sought one. The walk is another call: so this one needs few registers.
#[inline(never)]
fn back_for<K: Key, V: Copy, T: Table<K, V>>(table: &T, near: &mut usize, key: &K) -> bool
    requires within { near.old < length (T.entries table.now) }
    requires greater { are_greater K.order key.now (drop near.old (T.entries table.now)) ≡ true }
    ensures at { IsTrue result → IsAt key.now (T.entries table.now) near.new }
    ensures gap { IsFalse result → IsGap K.order key.now (T.entries table.now) near.new }
{
    if *near == 0 {
        return false;
    }
    let place = *near - 1;
    let Some(entry) = table.at(place) else {
        return search_for(table, near, key);
    };
    match order_of(key, &entry.0) {
        Ordering::Less => {
            *near = place;
            walk_back_for(table, near, key)
        }
        Ordering::Equal => {
            *near = place;
            true
        }
        Ordering::Greater => search_between(table, near, key, place + 1, place + 1),
    }
}

/// The same by a walk back from an index whose key is greater.
#[inline(never)]
fn walk_back_for<K: Key, V: Copy, T: Table<K, V>>(table: &T, near: &mut usize, key: &K) -> bool
    requires within { near.old < length (T.entries table.now) }
    requires greater { are_greater K.order key.now (drop near.old (T.entries table.now)) ≡ true }
    ensures at { IsTrue result → IsAt key.now (T.entries table.now) near.new }
    ensures gap { IsFalse result → IsGap K.order key.now (T.entries table.now) near.new }
{
    let mut high = *near;
    let mut step = FIRST_STEP;
    while high > 0 {
        let place = index_back(high, step / 4);
        let Some(entry) = table.at(place) else {
            return search_for(table, near, key);
        };
        match order_of(key, &entry.0) {
            Ordering::Less => {
                high = place;
                step = next_step(step);
            }
            Ordering::Equal => {
                *near = place;
                return true;
            }
            Ordering::Greater => return search_between(table, near, key, place + 1, high),
        }
    }
    *near = 0;
    false
}
