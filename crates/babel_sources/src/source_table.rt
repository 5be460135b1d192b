//! The table that the source table is kept in. It is a type of its own, so that a proof about a
//! call over any table takes it by its name: as an alias of `SortedTable` each such call of a
//! speaker takes seconds.

ghost use Rattle.babel_table.specs.Digits.{binary_digits};

use crate::sources::SourceEntry;
use babel_table::{Change, Full, Memory, Moments, Revision, SortedTable, Sought, Steps, Table};
use babel_value::Source;
use std::alloc::Global;
use std::sync::ledger::Ledger;

/// The entries in the order of their sources.
#[derive(Drop)]
pub struct SourceTable {
    table: SortedTable<Source, SourceEntry>,
}

impl Table<Source, SourceEntry> for SourceTable {
    ghost entries = { λ table. table.table.entries.items };

    ghost room = { λ table. table.table.places };

    ghost most_steps = { binary_digits };

    ghost ordered = { λ table. table.table.sorted };

    fn with_room(alloc: Global, places: usize) -> Result<SourceTable, Memory> {
        Ok(SourceTable {
            table: SortedTable::with_room(alloc, places)?,
        })
    }

    #[inline(always)]
    fn get<L: Ledger, S: Sought<L, Source>>(
        &self,
        key: &S,
        steps: &mut Steps<L>,
    ) -> Option<SourceEntry> {
        self.table.get(key, steps)
    }

    #[inline(always)]
    fn put(&mut self, key: Source, value: SourceEntry) -> Result<(), Full> {
        self.table.put(key, value)
    }

    #[inline(always)]
    fn replace(&mut self, place: usize, key: Source, value: SourceEntry) {
        self.table.replace(place, key, value);
    }

    #[inline(always)]
    fn insert(&mut self, place: usize, key: Source, value: SourceEntry) {
        self.table.insert(place, key, value);
    }

    #[inline(always)]
    fn remove(&mut self, key: &Source) {
        self.table.remove(key);
    }

    #[inline(always)]
    fn remove_at(&mut self, place: usize, key: &Source) {
        self.table.remove_at(place, key);
    }

    #[inline(always)]
    fn put_near(&mut self, near: usize, key: Source, value: SourceEntry) -> Result<usize, Full> {
        self.table.put_near(near, key, value)
    }

    #[inline(always)]
    fn change_near<C: Change<SourceEntry>>(
        &mut self,
        near: usize,
        key: Source,
        change: &C,
    ) -> Result<usize, Full> {
        self.table.change_near(near, key, change)
    }

    #[inline(always)]
    fn revise_dated<R: Revision<Source, SourceEntry>, M: Moments<SourceEntry>>(
        &mut self,
        revision: &R,
    ) -> u64 {
        self.table.revise_dated::<R, M>(revision)
    }

    #[inline(always)]
    fn clear(&mut self) {
        self.table.clear();
    }

    #[inline(always)]
    fn len(&self) -> usize {
        self.table.len()
    }

    #[inline(always)]
    fn at(&self, place: usize) -> Option<(Source, SourceEntry)> {
        self.table.at(place)
    }
}
