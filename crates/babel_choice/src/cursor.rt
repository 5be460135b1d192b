//! Where the last reselection was.

/// Where in the tables the last reselection was. It only matters for speed: prefixes that rise are
/// reselected in one walk over the entries, the selections and the sources.
#[derive(Drop)]
pub struct Cursor {
    /// An index in the table of routes.
    pub entry: usize,
    /// An index in the table of selections.
    pub selection: usize,
    /// The index in the source table, near which its searches begin.
    pub source: usize,
}

impl Cursor {
    /// A cursor that is nowhere yet.
    pub fn new() -> Cursor {
        Cursor {
            entry: usize::MAX,
            selection: usize::MAX,
            source: usize::MAX,
        }
    }
}
