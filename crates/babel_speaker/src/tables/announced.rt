//! The prefixes that a speaker announces itself.

ghost use Rattle.std.specs.Prelude.{◌≡◌, ◌≤◌, ◌<◌, ◌↔◌, true, false, [], length, is_none, is_some, option_map, slice_get, IfOk, IsErr, IsFalse, IsNone, IsSome, IsTrue, OnOk, OnErr};
ghost use Rattle.std.specs.FinMap.{find, put, is_sorted};
ghost use Rattle.babel_value.specs.Orders.{prefix_cmp};
ghost use Rattle.babel_table.specs.Entries.{without};
ghost use Rattle.babel_choice.specs.Origins.{is_own};
ghost use Rattle.babel_state.specs.State.{prefixes_in};

use crate::tables::Prefixes;
use babel_choice::Origin;
use babel_state::MAX_PREFIXES;
use babel_table::{Full, SortedTable, Table, find_in, find_near};
use babel_value::{Memory, Prefix};
use std::alloc::Global;
use std::marker::Model;

/// The announced prefixes, at most 64, in ascending order.
#[derive(Drop)]
pub struct Announced {
    table: SortedTable<Prefix, ()>,
}

impl Model for Announced {
    ghost use Rattle.std.specs.Prelude.{◌≡◌};
    ghost use Rattle.babel_state.specs.State.{PrefixSet};
    ghost use Rattle.babel_state.specs.Limits.{most_prefixes};

    ghost Value = { PrefixSet };

    ghost view = { λ a. a.table.entries.items };

    ghost invariant = { λ a. a.table.places ≡ most_prefixes };
}

impl Announced {
    /// No prefixes, with the room for all that there may be.
    pub fn new(alloc: Global) -> Result<Announced, Memory>
        ensures { IfOk result (λ announced. announced ≡ []) }
    {
        let table = SortedTable::with_room(alloc, MAX_PREFIXES)?;
        Ok(Announced { table })
    }

    /// Removes all prefixes. Their room stays.
    pub fn clear(&mut self)
        ensures { self.new ≡ [] }
    {
        self.table.clear();
    }

    /// Whether the prefix is announced.
    #[inline(always)]
    pub fn contains(&self, prefix: &Prefix) -> bool
        ensures { result ≡ is_some (find prefix_cmp prefix.now self.now) }
    {
        find_in(&self.table, prefix).is_some()
    }

    /// Who announces the prefix.
    pub fn origin(&self, prefix: &Prefix) -> Origin
        ensures { is_own result ≡ is_some (find prefix_cmp prefix.now self.now) }
    {
        if self.contains(prefix) {
            Origin::Own
        } else {
            Origin::Learned
        }
    }

    /// Announces the prefix, and returns whether it is new. `Full` if and only if it is and 64
    /// others are announced. The search begins at the index `near`, which becomes that of the
    /// prefix, or the one at which it would be.
    pub fn insert_near(&mut self, prefix: Prefix, near: &mut usize) -> Result<bool, Full>
        ensures full { IsErr result ↔ (IsNone (find prefix_cmp prefix self.old) × (length self.old ≡ MAX_PREFIXES)) }
        ensures new { IfOk result (λ new. new ≡ is_none (find prefix_cmp prefix self.old)) }
        ensures ok { OnOk result (self.new ≡ put prefix_cmp prefix tt self.old) }
        ensures known { IfOk result (λ new. IsFalse new → self.new ≡ self.old) }
        ensures announced { OnOk result (is_some (find prefix_cmp prefix self.new) ≡ true) }
        ensures err { OnErr result (self.new ≡ self.old) }
    {
        if find_near(&self.table, near, &prefix).is_some() {
            return Ok(false);
        }
        if self.table.len() == MAX_PREFIXES {
            return Err(Full);
        }
        self.table.insert(*near, prefix, ());
        Ok(true)
    }

    /// The prefix isn't announced any more. Returns whether it was. The search begins at the index
    /// `near`, which becomes the one at which the prefix was, or would be.
    pub fn remove_near(&mut self, prefix: &Prefix, near: &mut usize) -> bool
        ensures known { result ≡ is_some (find prefix_cmp prefix.now self.old) }
        ensures removed { IsTrue result → self.new ≡ without prefix_cmp prefix.now self.old }
        ensures unknown { IsFalse result → self.new ≡ self.old }
        ensures gone { is_some (find prefix_cmp prefix.now self.new) ≡ false }
    {
        if find_near(&self.table, near, prefix).is_none() {
            return false;
        }
        self.table.remove_at(*near, prefix);
        true
    }

    /// The announced prefix that has exactly `place` lesser ones.
    pub(crate) fn at(&self, place: usize) -> Option<Prefix>
        ensures prefix { result ≡ option_map (λ e. e.0) (slice_get self.now place) }
        ensures within { IsSome result → place < MAX_PREFIXES }
    {
        let _count = self.len();
        self.table.at(place).map(|entry| entry.0)
    }

    /// How many prefixes are announced.
    pub fn len(&self) -> usize
        ensures len { result ≡ length self.now }
        ensures within { result ≤ MAX_PREFIXES }
        ensures in_order { IsTrue (is_sorted prefix_cmp self.now) }
    {
        self.table.len()
    }

    /// The announced prefixes.
    pub fn prefixes(&self) -> Prefixes<'_>
        ensures { result ≡ prefixes_in self.now }
    {
        Prefixes::new(&self.table)
    }
}
