//! A table as a sequence in the order of the keys.

ghost use Rattle.std.specs.Prelude.{◌≡◌, ◌+◌, ◌≤◌, ◌<◌, ◌↔◌, IsTrue, IsErr, IsNone, length, IfOk, IfErr, OnOk, OnErr};
ghost use Rattle.std.specs.FinMap.{find, put, is_sorted};
ghost use Rattle.babel_table.specs.Digits.{binary_digits};
ghost use Rattle.babel_table.specs.Places.{IsAt, IsGap};

use crate::gap::GapVec;
use crate::near::order_of;
use crate::sequences::Sequence;
use crate::{Change, Full, Key, Memory, Moments, Revision, Sought, Steps, Table};
use std::alloc::Global;
use std::cmp::Ordering;
use std::marker::{Brand, PhantomData};
use std::sync::ledger::{Blank, Ledger};

/// A table kept in the order of its keys, in a sequence of the type `Q`. A look-up is a binary
/// search.
#[derive(Drop)]
pub struct SortedTable<K: Key, V: Copy, Q: Sequence<K, V> = Vec<(K, V)>> {
    entries: Q,
    places: usize,
    /// The type of an entry, which `entries` has in its bound alone.
    entry: PhantomData<(K, V)>,
    ghost has_room: { places ≤ Q.room entries },
    ghost few: { length (Q.items entries) ≤ places },
    ghost sorted: { IsTrue (is_sorted K.order (Q.items entries)) },
}

/// A table kept in the order of its keys, with a gap where the last entry was removed or inserted.
/// Keys that rise are removed, or stored again, in one pass over the table.
pub type GapTable<K, V> = SortedTable<K, V, GapVec<(K, V)>>;

impl<K: Key, V: Copy, Q: Sequence<K, V>> Table<K, V> for SortedTable<K, V, Q> {
    ghost entries = { λ table. Q.items table.entries };

    ghost room = { λ table. table.places };

    ghost most_steps = { binary_digits };

    ghost ordered = { λ table. table.sorted };

    fn with_room(alloc: Global, places: usize) -> Result<SortedTable<K, V, Q>, Memory> {
        Ok(SortedTable {
            entries: Q::with_room(alloc, places)?,
            places,
            entry: PhantomData,
        })
    }

    fn get<L: Ledger, S: Sought<L, K>>(&self, key: &S, steps: &mut Steps<L>) -> Option<V> {
        match search(self, key, steps) {
            Ok(place) => Some(self.entries.item(place).1),
            Err(_) => None,
        }
    }

    fn put(&mut self, key: K, value: V) -> Result<(), Full> {
        let found = place_of(self, &key);
        store(self, found, key, value)
    }

    fn replace(&mut self, place: usize, key: K, value: V) {
        self.entries.set(place, key, value);
    }

    fn insert(&mut self, place: usize, key: K, value: V) {
        self.entries.insert(place, key, value);
    }

    fn remove(&mut self, key: &K) {
        if let Ok(place) = place_of(self, key) {
            self.entries.remove(place);
        }
    }

    fn remove_at(&mut self, place: usize, _key: &K) {
        self.entries.remove(place);
    }

    fn put_near(&mut self, near: usize, key: K, value: V) -> Result<usize, Full> {
        let found = place_near(self, near, &key);
        store_found(self, found, key, value)
    }

    fn change_near<C: Change<V>>(
        &mut self,
        near: usize,
        key: K,
        change: &C,
    ) -> Result<usize, Full> {
        let found = place_near(self, near, &key);
        let value = change.changed(value_at(self, &key, found));
        store_found(self, found, key, value)
    }

    fn revise_dated<R: Revision<K, V>, M: Moments<V>>(&mut self, revision: &R) -> u64 {
        self.entries.revise::<R, M>(revision)
    }

    fn clear(&mut self) {
        self.entries.clear();
    }

    fn len(&self) -> usize {
        self.entries.len()
    }

    fn at(&self, place: usize) -> Option<(K, V)> {
        if place < self.entries.len() {
            Some(*self.entries.item(place))
        } else {
            None
        }
    }
}

/// Stores the value at the index at which a search found the key, or found it missing. `Full` if
/// and only if the key is missing and the table is full.
fn store<K: Key, V: Copy, Q: Sequence<K, V>>(
    table: &mut SortedTable<K, V, Q>,
    found: Result<usize, usize>,
    key: K,
    value: V,
) -> Result<(), Full>
    requires found { IfOk found (IsAt key (Q.items table.old.entries)) }
    requires missing { IfErr found (IsGap K.order key (Q.items table.old.entries)) }
    ensures full { IsErr result ↔ (IsNone (find K.order key (Q.items table.old.entries)) × (length (Q.items table.old.entries) ≡ table.old.places)) }
    ensures ok { OnOk result (Q.items table.new.entries ≡ put K.order key value (Q.items table.old.entries)) }
    ensures err { OnErr result (Q.items table.new.entries ≡ Q.items table.old.entries) }
    ensures places { table.new.places ≡ table.old.places }
{
    match found {
        Ok(place) => {
            table.entries.set(place, key, value);
            Ok(())
        }
        Err(place) => {
            if table.entries.len() == table.places {
                return Err(Full);
            }
            table.entries.insert(place, key, value);
            Ok(())
        }
    }
}

/// The same, and returns the index.
fn store_found<K: Key, V: Copy, Q: Sequence<K, V>>(
    table: &mut SortedTable<K, V, Q>,
    found: Result<usize, usize>,
    key: K,
    value: V,
) -> Result<usize, Full>
    requires found { IfOk found (IsAt key (Q.items table.old.entries)) }
    requires missing { IfErr found (IsGap K.order key (Q.items table.old.entries)) }
    ensures full { IsErr result ↔ (IsNone (find K.order key (Q.items table.old.entries)) × (length (Q.items table.old.entries) ≡ table.old.places)) }
    ensures ok { OnOk result (Q.items table.new.entries ≡ put K.order key value (Q.items table.old.entries)) }
    ensures err { OnErr result (Q.items table.new.entries ≡ Q.items table.old.entries) }
    ensures places { table.new.places ≡ table.old.places }
{
    let (Ok(place) | Err(place)) = found;
    match store(table, found, key, value) {
        Ok(()) => Ok(place),
        Err(full) => Err(full),
    }
}

/// The value at the index at which a search found the key, or none.
fn value_at<K: Key, V: Copy, Q: Sequence<K, V>>(
    table: &SortedTable<K, V, Q>,
    key: &K,
    found: Result<usize, usize>,
) -> Option<V>
    requires found { IfOk found (IsAt key.now (Q.items table.now.entries)) }
    requires missing { IfErr found (IsGap K.order key.now (Q.items table.now.entries)) }
    ensures { result ≡ find K.order key.now (Q.items table.now.entries) }
{
    // The key is in the contract alone.
    let _ = key;
    match found {
        Ok(place) => Some(table.entries.item(place).1),
        Err(_) => None,
    }
}

/// The index of the key, or as `Err` the index at which it would be inserted.
fn search<L: Ledger, K: Key, V: Copy, Q: Sequence<K, V>, S: Sought<L, K>>(
    table: &SortedTable<K, V, Q>,
    key: &S,
    steps: &mut Steps<L>,
) -> Result<usize, usize>
    ensures found { IfOk result (IsAt (S.key key.now) (Q.items table.now.entries)) }
    ensures missing { IfErr result (IsGap K.order (S.key key.now) (Q.items table.now.entries)) }
    ensures cost { steps.new ≤ steps.old + binary_digits (length (Q.items table.now.entries)) }
{
    let mut low = 0;
    let mut high = table.entries.len();
    while low < high {
        let middle = low + (high - low) / 2;
        match key.compare_with(&table.entries.item(middle).0, steps) {
            Ordering::Less => high = middle,
            Ordering::Equal => return Ok(middle),
            Ordering::Greater => low = middle + 1,
        }
    }
    Err(low)
}

/// The same. The steps are not counted.
fn place_of<K: Key, V: Copy, Q: Sequence<K, V>>(
    table: &SortedTable<K, V, Q>,
    key: &K,
) -> Result<usize, usize>
    ensures found { IfOk result (IsAt key.now (Q.items table.now.entries)) }
    ensures missing { IfErr result (IsGap K.order key.now (Q.items table.now.entries)) }
{
    place_on::<Brand, K, V, Q>(table, key, Blank::new(1))
}

fn place_on<L: Ledger, K: Key, V: Copy, Q: Sequence<K, V>>(
    table: &SortedTable<K, V, Q>,
    key: &K,
    blank: Blank,
) -> Result<usize, usize>
    requires name { blank.name ≡ L.name }
    requires parts { blank.parts ≡ L.parts }
    requires several { 0 < blank.parts }
    ensures found { IfOk result (IsAt key.now (Q.items table.now.entries)) }
    ensures missing { IfErr result (IsGap K.order key.now (Q.items table.now.entries)) }
{
    let mut steps = Steps::<L>::open(blank);
    search(table, key, &mut steps)
}

/// The same. It looks at the index `near` first.
fn place_near<K: Key, V: Copy, Q: Sequence<K, V>>(
    table: &SortedTable<K, V, Q>,
    near: usize,
    key: &K,
) -> Result<usize, usize>
    ensures found { IfOk result (IsAt key.now (Q.items table.now.entries)) }
    ensures missing { IfErr result (IsGap K.order key.now (Q.items table.now.entries)) }
{
    if near < table.entries.len() && order_of(key, &table.entries.item(near).0).is_eq() {
        return Ok(near);
    }
    place_of(table, key)
}
