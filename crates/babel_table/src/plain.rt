//! A table as a list in the order in which its keys were first stored.

ghost use Rattle.std.specs.Prelude.{◌≡◌, ◌+◌, ◌≤◌, ◌<◌, Some, None, IsTrue, length, vec_len, vec_capacity, MatchOption};
ghost use Rattle.std.specs.FinMap.{find};
ghost use Rattle.babel_table.specs.Entries.{lesser_keys};
ghost use Rattle.babel_table.specs.Insertions.{in_order, are_distinct, sorted_in_order};
ghost use Rattle.babel_table.specs.Places.{IsAt};

use crate::revisions::compact;
use crate::{Change, Full, Key, Memory, Moments, Revision, Sought, Steps, Table};
use std::alloc::Global;
use std::marker::Brand;
use std::sync::ledger::{Blank, Ledger};

/// A table kept in the order in which its keys were first stored. A look-up compares the key with
/// one after the other.
#[derive(Drop)]
pub struct PlainTable<K: Key, V: Copy> {
    entries: Vec<(K, V)>,
    places: usize,
    ghost has_room: { places ≤ vec_capacity entries },
    ghost few: { vec_len entries ≤ places },
    ghost distinct: { IsTrue (are_distinct K.order entries.items) },
}

impl<K: Key, V: Copy> Table<K, V> for PlainTable<K, V> {
    ghost entries = { λ table. in_order K.order table.entries.items };

    ghost room = { λ table. table.places };

    ghost most_steps = { λ entries. entries };

    ghost ordered = { λ table. sorted_in_order K.order K.total table.entries.items };

    fn with_room(alloc: Global, places: usize) -> Result<PlainTable<K, V>, Memory> {
        Ok(PlainTable {
            entries: Vec::with_capacity(alloc, places)?,
            places,
        })
    }

    fn get<L: Ledger, S: Sought<L, K>>(&self, key: &S, steps: &mut Steps<L>) -> Option<V> {
        match search(self, key, steps) {
            Some(place) => Some(self.entries[place].1),
            None => None,
        }
    }

    fn put(&mut self, key: K, value: V) -> Result<(), Full> {
        match place_of(self, &key) {
            Some(place) => {
                self.entries[place] = (key, value);
                Ok(())
            }
            None => {
                if self.entries.len() == self.places {
                    return Err(Full);
                }
                self.entries.push_reserved((key, value));
                Ok(())
            }
        }
    }

    fn remove(&mut self, key: &K) {
        if let Some(place) = place_of(self, key) {
            let _ = self.entries.remove(place);
        }
    }

    fn remove_at(&mut self, _place: usize, key: &K) {
        self.remove(key);
    }

    fn replace(&mut self, _place: usize, key: K, value: V) {
        let _ = self.put(key, value);
    }

    fn insert(&mut self, _place: usize, key: K, value: V) {
        let _ = self.put(key, value);
    }

    fn put_near(&mut self, near: usize, key: K, value: V) -> Result<usize, Full> {
        match self.put(key, value) {
            Ok(()) => Ok(near),
            Err(full) => Err(full),
        }
    }

    fn change_near<C: Change<V>>(
        &mut self,
        near: usize,
        key: K,
        change: &C,
    ) -> Result<usize, Full> {
        let value = change.changed(value_of(self, &key));
        self.put_near(near, key, value)
    }

    fn revise_dated<R: Revision<K, V>, M: Moments<V>>(&mut self, revision: &R) -> u64 {
        compact::<K, V, R, M>(&mut self.entries, revision)
    }

    fn clear(&mut self) {
        self.entries.clear();
    }

    fn len(&self) -> usize {
        self.entries.len()
    }

    fn at(&self, place: usize) -> Option<(K, V)> {
        for index in 0..self.entries.len() {
            let entry = self.entries[index];
            if lesser_than(self, &entry.0) == place {
                return Some(entry);
            }
        }
        None
    }
}

/// The index of the key.
fn search<L: Ledger, K: Key, V: Copy, S: Sought<L, K>>(
    table: &PlainTable<K, V>,
    key: &S,
    steps: &mut Steps<L>,
) -> Option<usize>
    ensures found { MatchOption result (find K.order (S.key key.now) table.now.entries.items ≡ None) (IsAt (S.key key.now) table.now.entries.items) }
    ensures cost { steps.new ≤ steps.old + length table.now.entries.items }
{
    for index in 0..table.entries.len() {
        if key.compare_with(&table.entries[index].0, steps).is_eq() {
            return Some(index);
        }
    }
    None
}

/// The same. The steps are not counted.
fn place_of<K: Key, V: Copy>(table: &PlainTable<K, V>, key: &K) -> Option<usize>
    ensures { MatchOption result (find K.order key.now table.now.entries.items ≡ None) (IsAt key.now table.now.entries.items) }
{
    place_on::<Brand, K, V>(table, key, Blank::new(1))
}

fn place_on<L: Ledger, K: Key, V: Copy>(
    table: &PlainTable<K, V>,
    key: &K,
    blank: Blank,
) -> Option<usize>
    requires name { blank.name ≡ L.name }
    requires parts { blank.parts ≡ L.parts }
    requires several { 0 < blank.parts }
    ensures { MatchOption result (find K.order key.now table.now.entries.items ≡ None) (IsAt key.now table.now.entries.items) }
{
    let mut steps = Steps::<L>::open(blank);
    search(table, key, &mut steps)
}

/// The value at the key. The steps are not counted.
fn value_of<K: Key, V: Copy>(table: &PlainTable<K, V>, key: &K) -> Option<V>
    ensures { result ≡ find K.order key.now (in_order K.order table.now.entries.items) }
{
    match place_of(table, key) {
        Some(place) => Some(table.entries[place].1),
        None => None,
    }
}

/// How many keys are lesser than this one. The steps are not counted.
fn lesser_than<K: Key, V: Copy>(table: &PlainTable<K, V>, key: &K) -> usize
    ensures { result ≡ lesser_keys K.order key.now table.now.entries.items }
{
    lesser_on::<Brand, K, V>(table, key, Blank::new(1))
}

fn lesser_on<L: Ledger, K: Key, V: Copy>(table: &PlainTable<K, V>, key: &K, blank: Blank) -> usize
    requires name { blank.name ≡ L.name }
    requires parts { blank.parts ≡ L.parts }
    requires several { 0 < blank.parts }
    ensures { result ≡ lesser_keys K.order key.now table.now.entries.items }
{
    let mut steps = Steps::<L>::open(blank);
    let mut lesser = 0;
    for index in 0..table.entries.len() {
        if table.entries[index].0.compare(key, &mut steps).is_lt() {
            lesser += 1;
        }
    }
    lesser
}
