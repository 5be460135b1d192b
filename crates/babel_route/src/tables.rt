//! The tables that routes and selections are kept in. They are types of their own, so that a proof
//! about a call over any tables takes them by their names: as aliases of `SortedTable` each such
//! call of a speaker takes seconds.

ghost use Rattle.babel_table.specs.Digits.{binary_digits};
ghost use Rattle.babel_table.specs.Gaps.{around};

use babel_choice::{Entry, RouteKey, Selection};
use babel_table::{
    Change, Full, GapTable, Memory, Moments, Revision, SortedTable, Sought, Steps, Table,
};
use babel_value::Prefix;
use std::alloc::Global;
use std::sync::ledger::Ledger;

/// The routes in the order of their keys.
#[derive(Drop)]
pub struct RouteTable {
    table: SortedTable<RouteKey, Entry>,
}

impl Table<RouteKey, Entry> for RouteTable {
    ghost entries = { λ table. table.table.entries.items };

    ghost room = { λ table. table.table.places };

    ghost most_steps = { binary_digits };

    ghost ordered = { λ table. table.table.sorted };

    fn with_room(alloc: Global, places: usize) -> Result<RouteTable, Memory> {
        Ok(RouteTable {
            table: SortedTable::with_room(alloc, places)?,
        })
    }

    #[inline(always)]
    fn get<L: Ledger, S: Sought<L, RouteKey>>(
        &self,
        key: &S,
        steps: &mut Steps<L>,
    ) -> Option<Entry> {
        self.table.get(key, steps)
    }

    #[inline(always)]
    fn put(&mut self, key: RouteKey, value: Entry) -> Result<(), Full> {
        self.table.put(key, value)
    }

    #[inline(always)]
    fn replace(&mut self, place: usize, key: RouteKey, value: Entry) {
        self.table.replace(place, key, value);
    }

    #[inline(always)]
    fn insert(&mut self, place: usize, key: RouteKey, value: Entry) {
        self.table.insert(place, key, value);
    }

    #[inline(always)]
    fn remove(&mut self, key: &RouteKey) {
        self.table.remove(key);
    }

    #[inline(always)]
    fn remove_at(&mut self, place: usize, key: &RouteKey) {
        self.table.remove_at(place, key);
    }

    #[inline(always)]
    fn put_near(&mut self, near: usize, key: RouteKey, value: Entry) -> Result<usize, Full> {
        self.table.put_near(near, key, value)
    }

    #[inline(always)]
    fn change_near<C: Change<Entry>>(
        &mut self,
        near: usize,
        key: RouteKey,
        change: &C,
    ) -> Result<usize, Full> {
        self.table.change_near(near, key, change)
    }

    #[inline(always)]
    fn revise_dated<R: Revision<RouteKey, Entry>, M: Moments<Entry>>(
        &mut self,
        revision: &R,
    ) -> u64 {
        self.table.revise_dated::<R, M>(revision)
    }

    #[inline(always)]
    fn clear(&mut self) {
        self.table.clear();
    }

    #[inline(always)]
    fn len(&self) -> usize {
        self.table.len()
    }

    #[inline(always)]
    fn at(&self, place: usize) -> Option<(RouteKey, Entry)> {
        self.table.at(place)
    }
}

/// The selections in the order of their prefixes. Prefixes that are lost, or found again, in this
/// order move no other selection.
#[derive(Drop)]
pub struct SelectionTable {
    table: GapTable<Prefix, Selection>,
}

impl Table<Prefix, Selection> for SelectionTable {
    ghost entries = { λ table. around table.table.entries.gap table.table.entries.hole table.table.entries.slots.items };

    ghost room = { λ table. table.table.places };

    ghost most_steps = { binary_digits };

    ghost ordered = { λ table. table.table.sorted };

    fn with_room(alloc: Global, places: usize) -> Result<SelectionTable, Memory> {
        Ok(SelectionTable {
            table: GapTable::with_room(alloc, places)?,
        })
    }

    #[inline(always)]
    fn get<L: Ledger, S: Sought<L, Prefix>>(
        &self,
        key: &S,
        steps: &mut Steps<L>,
    ) -> Option<Selection> {
        self.table.get(key, steps)
    }

    #[inline(always)]
    fn put(&mut self, key: Prefix, value: Selection) -> Result<(), Full> {
        self.table.put(key, value)
    }

    #[inline(always)]
    fn replace(&mut self, place: usize, key: Prefix, value: Selection) {
        self.table.replace(place, key, value);
    }

    #[inline(always)]
    fn insert(&mut self, place: usize, key: Prefix, value: Selection) {
        self.table.insert(place, key, value);
    }

    #[inline(always)]
    fn remove(&mut self, key: &Prefix) {
        self.table.remove(key);
    }

    #[inline(always)]
    fn remove_at(&mut self, place: usize, key: &Prefix) {
        self.table.remove_at(place, key);
    }

    #[inline(always)]
    fn put_near(&mut self, near: usize, key: Prefix, value: Selection) -> Result<usize, Full> {
        self.table.put_near(near, key, value)
    }

    #[inline(always)]
    fn change_near<C: Change<Selection>>(
        &mut self,
        near: usize,
        key: Prefix,
        change: &C,
    ) -> Result<usize, Full> {
        self.table.change_near(near, key, change)
    }

    #[inline(always)]
    fn revise_dated<R: Revision<Prefix, Selection>, M: Moments<Selection>>(
        &mut self,
        revision: &R,
    ) -> u64 {
        self.table.revise_dated::<R, M>(revision)
    }

    #[inline(always)]
    fn clear(&mut self) {
        self.table.clear();
    }

    #[inline(always)]
    fn len(&self) -> usize {
        self.table.len()
    }

    #[inline(always)]
    fn at(&self, place: usize) -> Option<(Prefix, Selection)> {
        self.table.at(place)
    }
}
