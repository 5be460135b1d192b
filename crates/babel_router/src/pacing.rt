//! When the router takes datagrams in, and when it sends. A datagram that comes alone is handled at
//! once. Of those that come in quick succession all that come within a short time are handled
//! together.

use babel_wire::{DurableReport, Report};

/// How long datagrams wait that come in quick succession, in centiseconds. RFC 8966, section 3.1,
/// asks that what is sent waits for a short time, so that several TLVs go in one datagram.
const PAUSE: u64 = 4;

/// How many datagrams are taken in one after another before a turn. If there were so many, the
/// router doesn't pause.
const MAX_TAKEN: u32 = 64;

/// How many items may be pending before a turn sends them: half of what the speaker has room for,
/// so that the replies to the next datagram seldom push others out.
const MAX_PENDING: usize = 2048;

/// Whether a step is the last one of a run.
#[derive(Clone, Copy)]
pub(crate) enum Place {
    /// Others follow.
    Within,
    /// None follows, so nothing may stay pending.
    Last,
}

/// What the router does next.
#[derive(Clone, Copy)]
pub(crate) enum Step {
    /// It takes a turn, which waits for a datagram until this moment. So it sends what is pending.
    Turn(u64),
    /// It pauses until this moment, whatever comes meanwhile. Then it takes in a datagram if one
    /// waits.
    TakeIn(u64),
}

/// What the router is at.
#[derive(Clone, Copy, Default)]
enum Phase {
    /// It waits for a datagram.
    #[default]
    Waiting,
    /// It pauses until this moment.
    Pausing(u64),
    /// It takes in the datagrams that wait.
    Taking,
    /// It has taken them in.
    Taken,
}

/// When datagrams came, and when the speaker has something to do by itself.
#[derive(Clone, Copy, Default)]
pub(crate) struct Pace {
    phase: Phase,
    /// When the last datagram came.
    came: u64,
    /// How many were taken in since the last turn.
    taken: u32,
    /// What [`babel_speaker::Speaker::next_due`] returned when nothing was pending the last time.
    /// No Hello is due earlier.
    due: u64,
}

impl Pace {
    /// Whether it matters to the next step when something is due.
    pub(crate) fn needs_due(&self) -> bool {
        matches!(&self.phase, Phase::Waiting | Phase::Pausing(_))
    }

    /// The next step at the moment. `due` is what the speaker's `next_due` returns now: 0 if
    /// something is pending, or if it doesn't matter.
    ///
    /// Shortly before something is due each step is a turn, which sends what it queues. If a Hello
    /// were queued while datagrams are only taken in, replies to them could push it out.
    pub(crate) fn next(&mut self, moment: u64, due: u64, place: Place) -> Step {
        if due > 0 {
            self.due = due;
        }
        if let Place::Last = place {
            return Step::Turn(due);
        }
        match self.phase {
            Phase::Waiting => Step::Turn(due),
            Phase::Taken => Step::Turn(0),
            Phase::Taking if self.is_due_soon(moment) => Step::Turn(0),
            Phase::Taking => Step::TakeIn(0),
            Phase::Pausing(_) if self.is_due_soon(moment) => Step::Turn(self.due),
            Phase::Pausing(end) => {
                self.phase = Phase::Taking;
                Step::TakeIn(end)
            }
        }
    }

    /// Whether something is due within a pause.
    fn is_due_soon(&self, moment: u64) -> bool {
        self.due <= moment.saturating_add(PAUSE)
    }

    /// A datagram was taken in at the moment, or none waited. So many items are pending.
    pub(crate) fn note_taken(&mut self, moment: u64, report: Report, pending: usize) {
        if report.received > 0 {
            self.came = moment;
            self.taken = self.taken.saturating_add(1);
        }
        self.phase = if self.taken == 0 {
            Phase::Waiting
        } else if report.received > 0 && self.taken < MAX_TAKEN && pending < MAX_PENDING {
            Phase::Taking
        } else {
            Phase::Taken
        };
    }

    /// A turn was taken at the moment.
    pub(crate) fn note_turn(&mut self, moment: u64, turn: DurableReport) {
        let has_come = turn.report.received > 0;
        let is_quick = has_come && moment < self.came.saturating_add(PAUSE);
        self.phase = if self.taken >= MAX_TAKEN {
            Phase::Taking
        } else if self.taken > 0 || is_quick {
            Phase::Pausing(moment.saturating_add(PAUSE))
        } else {
            Phase::Waiting
        };
        self.taken = 0;
        if has_come {
            self.came = moment;
        }
    }
}
