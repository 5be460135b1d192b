//! The source table of a speaker after a restart.

ghost use Rattle.std.specs.Prelude.{◌≡◌, ◌<◌, ◌+◌, [], length, take};
ghost use Rattle.babel_state.specs.Restarts.{restored_sources, IsSnapshot};

use babel_snapshot::SavedState;
use babel_sources::Sources;

/// Adds the saved source with this index to a table that has those before it.
fn restore_source(sources: &mut Sources, now: u64, saved: &SavedState, index: usize)
    requires snapshot { IsSnapshot saved.now }
    requires within { index < length saved.now.sources }
    requires before { sources.old ≡ restored_sources now (take index saved.now.sources) }
    ensures { sources.new ≡ restored_sources now (take (index + 1) saved.now.sources) }
{
    match saved.source(index) {
        Some(entry) => sources.add_last(now, entry.0, entry.1),
        None => {}
    }
}

/// Adds the saved sources to a table that has none. They are in order, so that is one pass.
pub fn restore_sources(sources: &mut Sources, now: u64, saved: &SavedState)
    requires { sources.old ≡ [] }
    ensures { sources.new ≡ restored_sources now saved.now.sources }
{
    let count = saved.len();
    for index in 0..count {
        restore_source(sources, now, saved, index);
    }
}
