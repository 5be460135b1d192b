//! Counts of what may have changed.

ghost use Rattle.std.specs.Prelude.{◌≡◌, ◌+◌, ◌≤◌, ◌<◌, IsFalse};
ghost use Rattle.babel_route.specs.declared.routes.changes.Report.{Report};
ghost use Rattle.babel_speaker.specs.Versions.{greatest_version};

use crate::state::Core;
use babel_route::Report;
use babel_value::Seqno;

/// The count of what may have changed, one greater if there may be a change. It stops at the
/// greatest number of 64 bits, and from there on it shows no change.
pub(crate) fn counted(count: u64, changed: bool) -> u64
    ensures grows { count ≤ result }
    ensures counted { result ≡ count → result < greatest_version → IsFalse changed }
    ensures kept { IsFalse changed → result ≡ count }
    ensures step { result ≤ count + 1 }
{
    if changed {
        count.saturating_add(1)
    } else {
        count
    }
}

/// Whether a route is reported otherwise than before.
pub(crate) fn is_other(report: Report) -> bool
    ensures other { IsFalse result → report ≡ Report.Alike }
    ensures alike { report ≡ Report.Alike → IsFalse result }
{
    match report {
        Report::Alike => false,
        Report::Other => true,
    }
}

/// The own seqno, and how often that grew.
pub(crate) fn own_seqno(core: &Core) -> (Seqno, u64)
    ensures seqno { result.0 ≡ core.now.seqno }
    ensures raises { result.1 ≡ core.now.raises }
{
    (core.seqno, core.raises)
}

/// Whether the own seqno, or how often that grew, is another than this.
pub(crate) fn has_grown(core: &Core, seqno: Seqno, raises: u64) -> bool
    ensures seqno { IsFalse result → core.now.seqno ≡ seqno }
    ensures raises { IsFalse result → core.now.raises ≡ raises }
    ensures same { core.now.seqno ≡ seqno → core.now.raises ≡ raises → IsFalse result }
{
    let own = core.seqno;
    own.0 != seqno.0 || core.raises != raises
}
