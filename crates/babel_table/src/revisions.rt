//! A revision of all entries of a table, in one pass.

ghost use Rattle.std.specs.Prelude.{◌≡◌, ◌-◌, ◌^◌, ◌≤◌, ◌<◌, ◌++◌, Option, None, IsTrue, length, take, drop, vec_len, vec_capacity};
ghost use Rattle.babel_table.specs.Dues.{AreDueFrom, IsLastQuiet};
ghost use Rattle.babel_table.specs.Entries.{revised_entries};
ghost use Rattle.babel_table.specs.Revisions.{revised_value};

use crate::Moments;

/// What becomes of a value in a revision.
pub enum Revised<V: Copy> {
    /// The value is as it was.
    Kept,
    /// This is the new value.
    Changed(V),
    /// The entry is removed.
    Removed,
}

/// What becomes of each entry.
pub trait Revision<K, V: Copy> {
    ghost revised: { Self → K → V → Option V };

    /// What becomes of the entry's value.
    fn revise(&self, key: &K, value: &V) -> Revised<V>
        ensures { revised_value value.now result ≡ revised self.now key.now value.now };
}

/// What the value of one key becomes.
pub trait Change<V: Copy> {
    ghost changed: { Self → Option V → V };

    /// What is stored in place of this value, or of none.
    fn changed(&self, value: Option<V>) -> V
        ensures { result ≡ changed self.now value };
}

/// Moments of values that are never due: a revision that asks for none has these.
pub(crate) struct Undated;

impl<V: Copy> Moments<V> for Undated {
    ghost moment_of = { λ _. 2 ^ 64 - 1 };

    fn moment(_value: &V) -> u64 {
        u64::MAX
    }
}

/// The first entries of a row, which a revision left so far.
#[derive(Clone, Copy)]
struct Left {
    /// How many they are.
    count: usize,
    /// The last moment before which none of them is due.
    due: u64,
}

/// Revises the entries in one pass, and returns the last moment before which none that is left is
/// due. Each is moved at most once, and one that is kept where it is isn't written.
pub(crate) fn compact<K: Copy, V: Copy, R: Revision<K, V>, M: Moments<V>>(
    entries: &mut Vec<(K, V)>,
    revision: &R,
) -> u64
    ensures items { entries.new.items ≡ revised_entries (R.revised revision.now) entries.old.items }
    ensures len { vec_len entries.new ≤ vec_len entries.old }
    ensures room { vec_capacity entries.new ≡ vec_capacity entries.old }
    ensures due { AreDueFrom M.moment_of result entries.new.items }
    ensures last { IsLastQuiet M.moment_of result entries.new.items }
{
    let left = revise_in_place::<K, V, R, M>(entries, revision);
    let left = move_down::<K, V, R, M>(entries, left, revision);
    entries.truncate(left.count);
    left.due
}

/// Revises the entries up to the first one that is removed. None of them is moved.
fn revise_in_place<K: Copy, V: Copy, R: Revision<K, V>, M: Moments<V>>(
    entries: &mut [(K, V)],
    revision: &R,
) -> Left
    ensures within { result.count ≤ length entries.old }
    ensures left { take result.count entries.new ++ revised_entries (R.revised revision.now) (drop result.count entries.new) ≡ revised_entries (R.revised revision.now) entries.old }
    ensures len { length entries.new ≡ length entries.old }
    ensures due { AreDueFrom M.moment_of result.due (take result.count entries.new) }
    ensures last { IsLastQuiet M.moment_of result.due (take result.count entries.new) }
{
    let mut due = u64::MAX;
    for index in 0..entries.len() {
        let entry = &entries[index];
        match revision.revise(&entry.0, &entry.1) {
            Revised::Kept => due = due.min(M::moment(&entry.1)),
            Revised::Changed(changed) => {
                due = due.min(M::moment(&changed));
                entries[index].1 = changed;
            }
            Revised::Removed => return Left { count: index, due },
        }
    }
    Left {
        count: entries.len(),
        due,
    }
}

/// Whether the entry is removed.
#[inline(always)]
fn is_removed<K: Copy, V: Copy, R: Revision<K, V>>(entry: &(K, V), revision: &R) -> bool
    ensures { IsTrue result → R.revised revision.now entry.now.0 entry.now.1 ≡ None }
{
    match revision.revise(&entry.0, &entry.1) {
        Revised::Removed => true,
        Revised::Kept | Revised::Changed(_) => false,
    }
}

/// The index of the first entry from an index on that is left, or their number if there is none.
/// Entries that are removed mostly follow one another, and nothing is copied for them. Two are
/// looked at in each turn, so that the turns take little next to that.
#[inline(always)]
fn pass_removed<K: Copy, V: Copy, R: Revision<K, V>>(
    entries: &[(K, V)],
    from: usize,
    revision: &R,
) -> usize
    requires { from ≤ length entries.now }
    ensures from { from ≤ result }
    ensures within { result ≤ length entries.now }
    ensures removed { revised_entries (R.revised revision.now) (drop result entries.now) ≡ revised_entries (R.revised revision.now) (drop from entries.now) }
{
    let mut left = &entries[from..];
    while let [first, second, rest @ ..] = left {
        if !is_removed(first, revision) || !is_removed(second, revision) {
            break;
        }
        left = rest;
    }
    if let [first, rest @ ..] = left {
        if is_removed(first, revision) {
            left = rest;
        }
    }
    entries.len() - left.len()
}

/// Revises the entries after those that are left already, of which the first is removed. Each that
/// is left is moved down to these.
fn move_down<K: Copy, V: Copy, R: Revision<K, V>, M: Moments<V>>(
    entries: &mut [(K, V)],
    left: Left,
    revision: &R,
) -> Left
    requires within { left.count ≤ length entries.old }
    requires due { AreDueFrom M.moment_of left.due (take left.count entries.old) }
    requires last { IsLastQuiet M.moment_of left.due (take left.count entries.old) }
    ensures within { result.count ≤ length entries.new }
    ensures left { take result.count entries.new ≡ take left.count entries.old ++ revised_entries (R.revised revision.now) (drop left.count entries.old) }
    ensures len { length entries.new ≡ length entries.old }
    ensures due { AreDueFrom M.moment_of result.due (take result.count entries.new) }
    ensures last { IsLastQuiet M.moment_of result.due (take result.count entries.new) }
{
    let mut count = left.count;
    let mut due = left.due;
    let first = pass_removed(entries, left.count, revision);
    for index in first..entries.len() {
        let entry = &entries[index];
        match revision.revise(&entry.0, &entry.1) {
            Revised::Kept => {
                due = due.min(M::moment(&entry.1));
                entries[count] = entries[index];
                count += 1;
            }
            Revised::Changed(changed) => {
                due = due.min(M::moment(&changed));
                entries[count] = (entry.0, changed);
                count += 1;
            }
            Revised::Removed => {}
        }
    }
    Left { count, due }
}
