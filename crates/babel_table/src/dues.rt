//! The moments from which on the values of a table are due.

ghost use Rattle.std.specs.Prelude.{◌≡◌, ℕ, ◌^◌, ◌≤◌, ◌<◌};
ghost use Rattle.babel_table.specs.Dues.{AreDueFrom, IsLastQuiet};
ghost use Rattle.babel_table.specs.Entries.{revised_entries};

use crate::{Key, Revision, Table};

/// A value that is due from a moment on.
pub trait Due: Copy {
    ghost due_of: { Self → ℕ };

    /// The moment from which on the value is due.
    fn due(&self) -> u64
        ensures { result ≡ due_of self.now };
}

/// The moment from which on each value is due. A table of values that aren't due has none, so it is
/// a parameter of the pass and no bound of the table.
pub trait Moments<V: Copy> {
    ghost moment_of: { V → ℕ };

    /// The moment from which on the value is due.
    fn moment(value: &V) -> u64
        ensures { result ≡ moment_of value.now };
}

/// Each value's own moment.
struct OwnMoments;

impl<V: Due> Moments<V> for OwnMoments {
    ghost moment_of = { V.due_of };

    fn moment(value: &V) -> u64 {
        value.due()
    }
}

/// Revises all entries of the table. Returns the last moment before which no value that it then has
/// is due.
pub fn revise_dues<K: Key, V: Due, T: Table<K, V>, R: Revision<K, V>>(
    table: &mut T,
    revision: &R,
) -> u64
    ensures entries { T.entries table.new ≡ revised_entries (R.revised revision.now) (T.entries table.old) }
    ensures room { T.room table.new ≡ T.room table.old }
    ensures due { AreDueFrom V.due_of result (T.entries table.new) }
    ensures last { IsLastQuiet V.due_of result (T.entries table.new) }
{
    table.revise_dated::<R, OwnMoments>(revision)
}

/// The last moment before which no value of the table is due: the least of theirs, or the greatest
/// moment if the table is empty.
pub fn least_due<K: Key, V: Due, T: Table<K, V>>(table: &T) -> u64
    ensures due { AreDueFrom V.due_of result (T.entries table.now) }
    ensures greatest { (moment : ℕ) → moment < 2 ^ 64 → AreDueFrom V.due_of moment (T.entries table.now) → moment ≤ result }
{
    let mut least = u64::MAX;
    for place in 0..table.len() {
        if let Some(entry) = table.at(place) {
            least = least.min(entry.1.due());
        }
    }
    least
}
