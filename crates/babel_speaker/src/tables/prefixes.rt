//! A walk over a set of prefixes.

ghost use Rattle.std.specs.Prelude.{◌≡◌};
ghost use Rattle.babel_state.specs.State.{prefixes_in};

use babel_table::{SortedTable, Table};
use babel_value::Prefix;
use std::marker::Model;

/// The prefixes of a set in ascending order. A clause sees the list of those that are still to
/// come.
#[derive(Drop)]
pub struct Prefixes<'a> {
    table: &'a SortedTable<Prefix, ()>,
    place: usize,
}

impl<'a> Model for Prefixes<'a> {
    ghost use Rattle.std.specs.Prelude.{List, drop};
    ghost use Rattle.babel_value.specs.Prefixes.{PrefixValue};
    ghost use Rattle.babel_state.specs.State.{prefixes_in};

    ghost Value = { List PrefixValue };

    ghost view = { λ w. prefixes_in (drop w.place w.table.now.entries.items) };
}

impl<'a> Prefixes<'a> {
    /// The walk from the first prefix on.
    pub(crate) fn new(table: &'a SortedTable<Prefix, ()>) -> Prefixes<'a>
        ensures { result ≡ prefixes_in table.now.entries.items }
    {
        Prefixes { table, place: 0 }
    }
}

impl<'a> Iterator for Prefixes<'a> {
    ghost use Rattle.std.specs.Iterator.{YieldsFirst, item_count};

    type Item = Prefix;

    ghost next_gives = { YieldsFirst (λ prefixes. prefixes) };

    ghost remaining = { item_count (λ prefixes. prefixes) };

    fn next(&mut self) -> Option<Prefix> {
        if self.place >= self.table.len() {
            return None;
        }
        let entry = self.table.at(self.place)?;
        self.place += 1;
        Some(entry.0)
    }
}
