//! The trait of all tables, and calls over any table.

ghost use Rattle.std.specs.Prelude.{◌≡◌, ℕ, ◌+◌, ◌≤◌, ◌<◌, ◌↔◌, List, [], length, slice_get, IfOk, OnOk, OnErr, IsErr, IsNone, IsSome, IsTrue};
ghost use Rattle.std.specs.FinMap.{find, put, is_sorted};
ghost use Rattle.babel_table.specs.Dues.{AreDueFrom, IsLastQuiet};
ghost use Rattle.babel_table.specs.Entries.{revised_entries, without, with_value};
ghost use Rattle.babel_table.specs.Places.{IsAt, IsGap};

use crate::revisions::Undated;
use crate::{Change, Full, Key, Memory, Moments, Revision, Sought, Steps};
use std::alloc::Global;
use std::marker::Brand;
use std::sync::ledger::{Blank, Ledger};

/// A table: at most `room` values, each at a key of its own. Contracts see it as the list of its
/// entries in the order of their keys.
///
/// A table takes its whole room when it is made.
pub trait Table<K: Key, V: Copy>: Drop {
    ghost entries: { Self → List (K × V) };

    ghost room: { Self → ℕ };

    // The greatest number of steps of a look-up, by the number of entries.
    ghost most_steps: { ℕ → ℕ };

    /// An empty table with room for this many entries.
    fn with_room(alloc: Global, places: usize) -> Result<Self, Memory>
        ensures entries { IfOk result (λ table. entries table ≡ []) }
        ensures room { IfOk result (λ table. room table ≡ places) };

    /// The value at the key, usually given as a `&K`.
    fn get<L: Ledger, S: Sought<L, K>>(&self, key: &S, steps: &mut Steps<L>) -> Option<V>
        ensures value { result ≡ find K.order (S.key key.now) (entries self.now) }
        ensures cost { steps.new ≤ steps.old + most_steps (length (entries self.now)) };

    /// Stores the value at the key. `Full` if and only if the key is new and the table is full.
    fn put(&mut self, key: K, value: V) -> Result<(), Full>
        ensures full { IsErr result ↔ (IsNone (find K.order key (entries self.old)) × (length (entries self.old) ≡ room self.old)) }
        ensures ok { OnOk result (entries self.new ≡ put K.order key value (entries self.old)) }
        ensures err { OnErr result (entries self.new ≡ entries self.old) }
        ensures room { room self.new ≡ room self.old };

    /// Stores the value at the key, which the table has at the index. There is no look-up.
    fn replace(&mut self, place: usize, key: K, value: V)
        requires at { IsAt key (entries self.old) place }
        ensures entries { entries self.new ≡ put K.order key value (entries self.old) }
        ensures room { room self.new ≡ room self.old };

    /// Stores the value at the key, which the table lacks and would have at the index. There is no
    /// look-up.
    fn insert(&mut self, place: usize, key: K, value: V)
        requires gap { IsGap K.order key (entries self.old) place }
        requires room { length (entries self.old) < room self.old }
        ensures entries { entries self.new ≡ put K.order key value (entries self.old) }
        ensures room { room self.new ≡ room self.old };

    /// Removes the entry of the key, if there is one.
    fn remove(&mut self, key: &K)
        ensures entries { entries self.new ≡ without K.order key.now (entries self.old) }
        ensures room { room self.new ≡ room self.old };

    /// Removes the entry of the key, which the table has at the index. There is no look-up.
    fn remove_at(&mut self, place: usize, key: &K)
        requires at { IsAt key.now (entries self.old) place }
        ensures entries { entries self.new ≡ without K.order key.now (entries self.old) }
        ensures room { room self.new ≡ room self.old };

    /// Stores the value at the key, and returns an index near that of the key. The search for the
    /// key begins at the index `near`, which only matters for speed. `Full` as of `put`.
    fn put_near(&mut self, near: usize, key: K, value: V) -> Result<usize, Full>
        ensures full { IsErr result ↔ (IsNone (find K.order key (entries self.old)) × (length (entries self.old) ≡ room self.old)) }
        ensures ok { OnOk result (entries self.new ≡ put K.order key value (entries self.old)) }
        ensures err { OnErr result (entries self.new ≡ entries self.old) }
        ensures room { room self.new ≡ room self.old };

    /// Stores what the change makes of the value at the key, with one look-up, and returns an index
    /// near that of the key. The look-up begins at the index `near`, as that of `put_near`. `Full`
    /// as of `put`.
    fn change_near<C: Change<V>>(&mut self, near: usize, key: K, change: &C) -> Result<usize, Full>
        ensures full { IsErr result ↔ (IsNone (find K.order key (entries self.old)) × (length (entries self.old) ≡ room self.old)) }
        ensures ok { OnOk result (entries self.new ≡ put K.order key (C.changed change.now (find K.order key (entries self.old))) (entries self.old)) }
        ensures err { OnErr result (entries self.new ≡ entries self.old) }
        ensures room { room self.new ≡ room self.old };

    /// Revises all entries in one pass.
    fn revise<R: Revision<K, V>>(&mut self, revision: &R)
        ensures entries { entries self.new ≡ revised_entries (R.revised revision.now) (entries self.old) }
        ensures room { room self.new ≡ room self.old }
    {
        let _ = self.revise_dated::<R, Undated>(revision);
    }

    /// Revises all entries in one pass. Returns the last moment before which no value that the
    /// table then has is due.
    fn revise_dated<R: Revision<K, V>, M: Moments<V>>(&mut self, revision: &R) -> u64
        ensures entries { entries self.new ≡ revised_entries (R.revised revision.now) (entries self.old) }
        ensures room { room self.new ≡ room self.old }
        ensures due { AreDueFrom M.moment_of result (entries self.new) }
        ensures last { IsLastQuiet M.moment_of result (entries self.new) };

    /// Removes all entries. Their room stays.
    fn clear(&mut self)
        ensures entries { entries self.new ≡ [] }
        ensures room { room self.new ≡ room self.old };

    /// How many entries there are.
    fn len(&self) -> usize
        ensures len { result ≡ length (entries self.now) }
        ensures within { result ≤ room self.now };

    /// The entry whose key has exactly `place` lesser keys.
    fn at(&self, place: usize) -> Option<(K, V)>
        ensures { result ≡ slice_get (entries self.now) place };

    ghost ordered: { (table : Self) → IsTrue (is_sorted K.order (entries table)) };
}

/// The value at the key. Its steps are not counted. Nothing is looked up in an empty table.
#[inline(always)]
pub fn find_in<K: Key, V: Copy, T: Table<K, V>>(table: &T, key: &K) -> Option<V>
    ensures { result ≡ find K.order key.now (T.entries table.now) }
{
    if table.len() == 0 {
        return None;
    }
    find_on::<Brand, K, V, T>(table, key, Blank::new(1))
}

fn find_on<L: Ledger, K: Key, V: Copy, T: Table<K, V>>(
    table: &T,
    key: &K,
    blank: Blank,
) -> Option<V>
    requires name { blank.name ≡ L.name }
    requires parts { blank.parts ≡ L.parts }
    requires several { 0 < blank.parts }
    ensures { result ≡ find K.order key.now (T.entries table.now) }
{
    let mut steps = Steps::<L>::open(blank);
    table.get(key, &mut steps)
}

/// Stores the value at the key, or removes the entry of the key if there is no value.
pub fn set<K: Key, V: Copy, T: Table<K, V>>(table: &mut T, key: K, value: Option<V>)
    requires room { IsSome value → IsNone (find K.order key (T.entries table.old)) → length (T.entries table.old) < T.room table.old }
    ensures entries { T.entries table.new ≡ with_value K.order key value (T.entries table.old) }
    ensures room { T.room table.new ≡ T.room table.old }
{
    match value {
        Some(value) => {
            let _ = table.put(key, value);
        }
        None => table.remove(&key),
    }
}

/// The same. The search for the key begins at the index, which only matters for speed.
pub fn set_near<K: Key, V: Copy, T: Table<K, V>>(
    table: &mut T,
    place: usize,
    key: K,
    value: Option<V>,
)
    requires room { IsSome value → IsNone (find K.order key (T.entries table.old)) → length (T.entries table.old) < T.room table.old }
    ensures entries { T.entries table.new ≡ with_value K.order key value (T.entries table.old) }
    ensures room { T.room table.new ≡ T.room table.old }
{
    let Some(value) = value else {
        table.remove(&key);
        return;
    };
    let _ = table.put_near(place, key, value);
}
