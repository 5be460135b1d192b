//! A source table of which nothing is left but its room.

ghost use Rattle.std.specs.Prelude.{◌≡◌, []};

use crate::source_table::SourceTable;
use crate::sources::SourcesOver;
use babel_table::Table;

impl SourcesOver<SourceTable> {
    /// Removes all entries. Their room stays.
    pub fn clear(&mut self)
        ensures { self.new ≡ [] }
    {
        self.table.clear();
        self.due = u64::MAX;
    }
}
