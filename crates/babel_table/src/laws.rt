//! Laws of the definitions, each the contract of a function that does nothing.

ghost use Rattle.std.specs.Prelude.{◌≡◌, ℕ, List, Some, IsTrue, slice_get};
ghost use Rattle.std.specs.FinMap.{is_sorted};
ghost use Rattle.babel_table.specs.Entries.{lesser_keys};

use crate::Key;

/// In a list of entries in order, the entry at an index is the one whose key has exactly that many
/// lesser ones.
pub fn places_count_lesser_keys<K: Key, V: Copy>()
    ensures { (es : List (K × V)) (place : ℕ) (entry : K × V) → IsTrue (is_sorted K.order es) → slice_get es place ≡ Some entry → lesser_keys K.order entry.0 es ≡ place }
{}
