//! The table of pending requests for a seqno (RFC 8966, section 3.2.7).

ghost use Rattle.std.specs.Prelude.{◌≡◌, ◌≤◌, ◌↔◌, [], false, length, slice_get, IfOk, IsErr, IsFalse, IsNone, OnErr, OnOk};
ghost use Rattle.std.specs.List.{list_any};
ghost use Rattle.std.specs.FinMap.{find, put};
ghost use Rattle.babel_value.specs.Orders.{source_cmp};
ghost use Rattle.babel_table.specs.Entries.{without};
ghost use Rattle.babel_state.specs.Limits.{most_requests};
ghost use Rattle.babel_state.specs.PendingRequests.{is_redundant, has_no_room, recorded};
ghost use Rattle.babel_state.specs.Ticks.{is_due_request};

use babel_state::{MAX_REQUESTS, PendingRequest, REQUEST_WAIT, Resend};
use babel_table::{Full, SortedTable, Table, find_near, put_near};
use babel_value::{Memory, Seqno, Source};
use std::alloc::Global;
use std::cell::Cell;
use std::marker::Model;

/// A request for a route of a source with at least this seqno, which may still go this number of
/// hops (RFC 8966, section 4.6.11).
#[derive(Clone, Copy)]
pub struct SeqnoRequest {
    /// The source.
    pub source: Source,
    /// The least seqno that is accepted.
    pub seqno: Seqno,
    /// How many hops it may still go.
    pub hops: u8,
}

/// The pending requests, at most 64, at most one for each source.
#[derive(Drop)]
pub struct RequestTable {
    pub(crate) table: SortedTable<Source, PendingRequest>,
    /// Before this moment no wait is over.
    pub(crate) due: u64,
    /// Where the last search ended. It only matters for speed: a search begins there, since the
    /// prefixes that are lost at once rise.
    near: Cell<usize>,
}

impl Model for RequestTable {
    ghost use Rattle.std.specs.Prelude.{◌≡◌};
    ghost use Rattle.babel_table.specs.Dues.{AreDueFrom};
    ghost use Rattle.babel_state.specs.Limits.{most_requests};
    ghost use Rattle.babel_state.specs.PendingRequests.{PendingRequests};

    ghost Value = { PendingRequests };

    ghost view = { λ r. r.table.entries.items };

    ghost invariant = { λ r. (r.table.places ≡ most_requests) × AreDueFrom (λ request. request.due) r.due r.table.entries.items };
}

impl RequestTable {
    /// No requests, with the room for all that there may be.
    pub fn new(alloc: Global) -> Result<RequestTable, Memory>
        ensures { IfOk result (λ requests. requests ≡ []) }
    {
        let table = SortedTable::with_room(alloc, MAX_REQUESTS)?;
        Ok(RequestTable {
            table,
            due: u64::MAX,
            near: Cell::new(0),
        })
    }

    /// Removes all requests. Their room stays.
    pub fn clear(&mut self)
        ensures { self.new ≡ [] }
    {
        self.table.clear();
        self.due = u64::MAX;
        self.near.set(0);
    }

    /// The pending request for the source. Mostly none is pending, which is tested in the caller.
    #[inline(always)]
    pub fn get(&self, source: &Source) -> Option<PendingRequest>
        ensures { result ≡ find source_cmp source.now self.now }
    {
        if self.table.len() == 0 {
            return None;
        }
        self.search(source)
    }

    /// The same by a search.
    #[inline(never)]
    fn search(&self, source: &Source) -> Option<PendingRequest>
        ensures { result ≡ find source_cmp source.now self.now }
    {
        let mut near = self.near.get();
        let request = find_near(&self.table, &mut near, source);
        self.near.set(near);
        request
    }

    /// Whether a request for the source is pending whose seqno isn't smaller (RFC 8966, section
    /// 3.8.1.2).
    pub fn is_redundant(&self, source: &Source, seqno: Seqno) -> bool
        ensures { result ≡ is_redundant source.now seqno self.now }
    {
        match self.get(source) {
            Some(request) => !request.seqno.less(seqno),
            None => false,
        }
    }

    /// Whether a request for the source can't be recorded: it is new, and 64 others are pending.
    pub fn has_no_room(&self, source: &Source) -> bool
        ensures { result ≡ has_no_room source.now self.now }
    {
        self.table.len() == MAX_REQUESTS && self.get(source).is_none()
    }

    /// Records a new request in place of the pending one for its source. A request for a new source
    /// isn't recorded if 64 others are pending.
    pub fn record(&mut self, now: u64, source: Source, seqno: Seqno, resend: Resend)
        ensures { self.new ≡ recorded now source seqno resend self.old }
    {
        let due = now.saturating_add(u64::from(REQUEST_WAIT));
        let request = PendingRequest {
            seqno,
            resend,
            wait: REQUEST_WAIT,
            due,
        };
        self.due = self.due.min(due);
        let mut near = self.near.get();
        let _ = store_near(&mut self.table, &mut near, source, request);
        self.near.set(near);
    }

    /// Removes the request for the source, if there is one.
    pub fn remove(&mut self, source: &Source)
        ensures { self.new ≡ without source_cmp source.now self.old }
    {
        self.table.remove(source);
    }

    /// Whether a wait may be over. If it returns `false`, none is. It looks at no request.
    pub fn may_be_due(&self, now: u64) -> bool
        ensures { IsFalse result → list_any (λ e. is_due_request now e.1) self.now ≡ false }
    {
        self.due <= now
    }

    /// How many requests are pending.
    pub fn len(&self) -> usize
        ensures len { result ≡ length self.now }
        ensures within { result ≤ MAX_REQUESTS }
    {
        self.table.len()
    }

    /// The request whose source has exactly `index` lesser ones.
    pub fn at(&self, index: usize) -> Option<(Source, PendingRequest)>
        ensures { result ≡ slice_get self.now index }
    {
        self.table.at(index)
    }
}

/// Stores the request in place of that for its source. `Full` if and only if it is for a new source
/// and 64 others are pending. The search begins near the index, which becomes that of the request.
#[inline(always)]
fn store_near(
    table: &mut SortedTable<Source, PendingRequest>,
    near: &mut usize,
    source: Source,
    request: PendingRequest,
) -> Result<(), Full>
    requires room { table.old.places ≡ most_requests }
    ensures full { IsErr result ↔ (IsNone (find source_cmp source table.old.entries.items) × (length table.old.entries.items ≡ most_requests)) }
    ensures ok { OnOk result (table.new.entries.items ≡ put source_cmp source request table.old.entries.items) }
    ensures err { OnErr result (table.new.entries.items ≡ table.old.entries.items) }
    ensures room { table.new.places ≡ table.old.places }
{
    if table.len() < MAX_REQUESTS {
        put_near(table, near, source, request);
        return Ok(());
    }
    table.put(source, request)
}
