//! What the entries of a table in order are kept in.

ghost use Rattle.std.specs.Prelude.{◌≡◌, ℕ, ◌≤◌, ◌<◌, List, [], Some, length, slice_get, set, insert, remove, vec_capacity, IfOk};
ghost use Rattle.babel_table.specs.Dues.{AreDueFrom, IsLastQuiet};
ghost use Rattle.babel_table.specs.Entries.{revised_entries};

use crate::revisions::compact;
use crate::{Memory, Moments, Revision};
use std::alloc::Global;

/// Entries in a row, each at an index. Contracts see them as a list.
///
/// A sequence takes its whole room when it is made.
pub trait Sequence<K: Copy, V: Copy>: Drop {
    ghost items: { Self → List (K × V) };

    ghost room: { Self → ℕ };

    /// An empty sequence with room for at least this many entries.
    fn with_room(alloc: Global, places: usize) -> Result<Self, Memory>
        ensures items { IfOk result (λ sequence. items sequence ≡ []) }
        ensures room { IfOk result (λ sequence. places ≤ room sequence) };

    /// How many entries there are.
    fn len(&self) -> usize
        ensures { result ≡ length (items self.now) };

    /// The entry at the index.
    fn item(&self, index: usize) -> &(K, V)
        requires { index < length (items self.now) }
        ensures { slice_get (items self.now) index ≡ Some result.now };

    /// Writes over the entry at the index.
    fn set(&mut self, index: usize, key: K, value: V)
        requires { index < length (items self.old) }
        ensures items { items self.new ≡ set (items self.old) index (key, value) }
        ensures room { room self.new ≡ room self.old };

    /// Inserts the entry at the index. There is room, so this takes no memory.
    fn insert(&mut self, index: usize, key: K, value: V)
        requires within { index ≤ length (items self.old) }
        requires room { length (items self.old) < room self.old }
        ensures items { items self.new ≡ insert (items self.old) index (key, value) }
        ensures room { room self.new ≡ room self.old };

    /// Removes the entry at the index.
    fn remove(&mut self, index: usize)
        requires { index < length (items self.old) }
        ensures items { items self.new ≡ remove (items self.old) index }
        ensures room { room self.new ≡ room self.old };

    /// Removes all entries.
    fn clear(&mut self)
        ensures items { items self.new ≡ [] }
        ensures room { room self.new ≡ room self.old };

    /// Revises all entries in one pass. Returns the last moment before which no value that is left
    /// is due.
    fn revise<R: Revision<K, V>, M: Moments<V>>(&mut self, revision: &R) -> u64
        ensures items { items self.new ≡ revised_entries (R.revised revision.now) (items self.old) }
        ensures len { length (items self.new) ≤ length (items self.old) }
        ensures room { room self.new ≡ room self.old }
        ensures due { AreDueFrom M.moment_of result (items self.new) }
        ensures last { IsLastQuiet M.moment_of result (items self.new) };
}

impl<K: Copy, V: Copy> Sequence<K, V> for Vec<(K, V)> {
    ghost items = { λ items. items.items };

    ghost room = { λ items. vec_capacity items };

    fn with_room(alloc: Global, places: usize) -> Result<Vec<(K, V)>, Memory> {
        Ok(Vec::with_capacity(alloc, places)?)
    }

    fn len(&self) -> usize {
        Vec::len(self)
    }

    fn item(&self, index: usize) -> &(K, V) {
        &self[index]
    }

    fn set(&mut self, index: usize, key: K, value: V) {
        self[index] = (key, value);
    }

    #[inline(always)]
    fn insert(&mut self, index: usize, key: K, value: V) {
        // Most entries come in their order: nothing has to move then.
        if index == Vec::len(self) {
            self.push_reserved((key, value));
        } else {
            let _ = Vec::insert(self, index, (key, value));
        }
    }

    fn remove(&mut self, index: usize) {
        let _ = Vec::remove(self, index);
    }

    fn clear(&mut self) {
        Vec::clear(self);
    }

    fn revise<R: Revision<K, V>, M: Moments<V>>(&mut self, revision: &R) -> u64 {
        compact::<K, V, R, M>(self, revision)
    }
}
