//! Indices in a table by a bound on its keys.

ghost use Rattle.std.specs.Prelude.{◌≡◌, Bool, true, false, ◌≤◌, take, drop, not, length};
ghost use Rattle.std.specs.List.{list_all};
ghost use Rattle.std.specs.Ordering.{is_gt};

use crate::{Key, Table};

/// A bound on keys. If a key is below it, so are all lesser ones.
pub trait Bound<K: Key> {
    ghost is_below: { Self → K → Bool };

    fn is_below(&self, key: &K) -> bool
        ensures { result ≡ is_below self.now key.now };

    ghost falling: { (bound : Self) (x y : K) → is_gt (K.order x y) ≡ false → is_below bound y ≡ true → is_below bound x ≡ true };
}

/// How many entries have a key below the bound. They are the first ones of the table.
pub fn places_below<K: Key, V: Copy, T: Table<K, V>, B: Bound<K>>(table: &T, bound: &B) -> usize
    ensures within { result ≤ length (T.entries table.now) }
    ensures below { list_all (λ e. B.is_below bound.now e.0) (take result (T.entries table.now)) ≡ true }
    ensures above { list_all (λ e. not (B.is_below bound.now e.0)) (drop result (T.entries table.now)) ≡ true }
{
    let len = table.len();
    places_between(table, bound, 0, len)
}

/// The same by a search between two indices: the entries before the first one are below the bound,
/// and those from the second one on aren't. Mostly nothing is between them.
#[inline(always)]
pub(crate) fn places_between<K: Key, V: Copy, T: Table<K, V>, B: Bound<K>>(
    table: &T,
    bound: &B,
    from: usize,
    to: usize,
) -> usize
    requires rising { from ≤ to }
    requires within { to ≤ length (T.entries table.now) }
    requires below { list_all (λ e. B.is_below bound.now e.0) (take from (T.entries table.now)) ≡ true }
    requires above { list_all (λ e. not (B.is_below bound.now e.0)) (drop to (T.entries table.now)) ≡ true }
    ensures within { result ≤ length (T.entries table.now) }
    ensures below { list_all (λ e. B.is_below bound.now e.0) (take result (T.entries table.now)) ≡ true }
    ensures above { list_all (λ e. not (B.is_below bound.now e.0)) (drop result (T.entries table.now)) ≡ true }
{
    if from == to {
        return to;
    }
    search_places(table, bound, from, to)
}

#[inline(never)]
fn search_places<K: Key, V: Copy, T: Table<K, V>, B: Bound<K>>(
    table: &T,
    bound: &B,
    from: usize,
    to: usize,
) -> usize
    requires rising { from ≤ to }
    requires within { to ≤ length (T.entries table.now) }
    requires below { list_all (λ e. B.is_below bound.now e.0) (take from (T.entries table.now)) ≡ true }
    requires above { list_all (λ e. not (B.is_below bound.now e.0)) (drop to (T.entries table.now)) ≡ true }
    ensures within { result ≤ length (T.entries table.now) }
    ensures below { list_all (λ e. B.is_below bound.now e.0) (take result (T.entries table.now)) ≡ true }
    ensures above { list_all (λ e. not (B.is_below bound.now e.0)) (drop result (T.entries table.now)) ≡ true }
{
    let mut low = from;
    let mut high = to;
    while low < high {
        let middle = low + (high - low) / 2;
        match table.at(middle) {
            Some(entry) if bound.is_below(&entry.0) => low = middle + 1,
            _ => high = middle,
        }
    }
    low
}
