//! A vector with a gap: items that are removed or inserted one after the other move no other item.

ghost use Rattle.std.specs.Prelude.{◌≡◌, ◌+◌, ◌≤◌, ◌<◌, length, slice_get, set, vec_len, vec_capacity};
ghost use Rattle.babel_table.specs.Gaps.{around};

use crate::revisions::compact;
use crate::sequences::Sequence;
use crate::{Memory, Moments, Revision};
use std::alloc::Global;

/// A vector with a gap (a gap buffer). To remove the first item after the gap widens it, and to
/// insert an item in it narrows it: neither moves another item. The gap goes to other indices
/// first, which moves the items between. It has no slots until an item is removed, and none after a
/// revision of all items.
#[derive(Drop)]
pub struct GapVec<T: Copy> {
    /// The items, and in the gap old ones that mean nothing.
    slots: Vec<T>,
    /// The index of the first slot of the gap.
    gap: usize,
    /// How many slots the gap has.
    hole: usize,
    ghost within: { gap + hole ≤ vec_len slots },
}

impl<K: Copy, V: Copy> Sequence<K, V> for GapVec<(K, V)> {
    ghost items = { λ sequence. around sequence.gap sequence.hole sequence.slots.items };

    ghost room = { λ sequence. vec_capacity sequence.slots };

    fn with_room(alloc: Global, places: usize) -> Result<GapVec<(K, V)>, Memory> {
        Ok(GapVec {
            slots: Vec::with_capacity(alloc, places)?,
            gap: 0,
            hole: 0,
        })
    }

    fn len(&self) -> usize {
        self.slots.len() - self.hole
    }

    fn item(&self, index: usize) -> &(K, V) {
        &self.slots[self.slot(index)]
    }

    fn set(&mut self, index: usize, key: K, value: V) {
        let slot = self.slot(index);
        self.slots[slot] = (key, value);
    }

    fn insert(&mut self, index: usize, key: K, value: V) {
        if self.hole == 0 {
            // There is room, so this takes no memory.
            let _ = self.slots.insert(index, (key, value));
            return;
        }
        self.move_gap(index);
        self.slots[index] = (key, value);
        self.gap += 1;
        self.hole -= 1;
    }

    fn remove(&mut self, index: usize) {
        self.move_gap(index);
        self.hole += 1;
    }

    fn clear(&mut self) {
        self.slots.clear();
        self.gap = 0;
        self.hole = 0;
    }

    fn revise<R: Revision<K, V>, M: Moments<V>>(&mut self, revision: &R) -> u64 {
        self.close_gap();
        compact::<K, V, R, M>(&mut self.slots, revision)
    }
}

impl<T: Copy> GapVec<T> {
    /// The slot of the item at the index.
    fn slot(&self, index: usize) -> usize
        requires { index < length (around self.now.gap self.now.hole self.now.slots.items) }
        ensures within { result < vec_len self.now.slots }
        ensures item { slice_get self.now.slots.items result ≡ slice_get (around self.now.gap self.now.hole self.now.slots.items) index }
        ensures written { (item : T) → around self.now.gap self.now.hole (set self.now.slots.items result item) ≡ set (around self.now.gap self.now.hole self.now.slots.items) index item }
    {
        if index < self.gap {
            index
        } else {
            index + self.hole
        }
    }

    /// Moves the gap to the index. The items stay in their order.
    fn move_gap(&mut self, index: usize)
        requires { index ≤ length (around self.old.gap self.old.hole self.old.slots.items) }
        ensures items { around self.new.gap self.new.hole self.new.slots.items ≡ around self.old.gap self.old.hole self.old.slots.items }
        ensures gap { self.new.gap ≡ index }
        ensures hole { self.new.hole ≡ self.old.hole }
        ensures slots { vec_len self.new.slots ≡ vec_len self.old.slots }
        ensures room { vec_capacity self.new.slots ≡ vec_capacity self.old.slots }
    {
        let (gap, hole) = (self.gap, self.hole);
        self.gap = index;
        // A gap of no slots is everywhere.
        if hole == 0 || index == gap {
            return;
        }
        if index < gap {
            self.slots.copy_within(index..gap, index + hole);
        } else {
            self.slots.copy_within(gap + hole..index + hole, gap);
        }
    }

    /// Makes the gap one of no slots. The items stay in their order.
    fn close_gap(&mut self)
        ensures items { self.new.slots.items ≡ around self.old.gap self.old.hole self.old.slots.items }
        ensures gap { self.new.gap ≡ 0 }
        ensures hole { self.new.hole ≡ 0 }
        ensures room { vec_capacity self.new.slots ≡ vec_capacity self.old.slots }
    {
        let len = self.slots.len() - self.hole;
        self.move_gap(len);
        self.slots.truncate(len);
        self.gap = 0;
        self.hole = 0;
    }
}
