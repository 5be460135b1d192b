//! What was counted in turns, and the lines that say it.

use babel_text::LineFault;
use babel_wire::{DurableReport, Report};
use std::io::{self, Write};

/// How many turns were taken, and what was counted in them. No count passes 2^64 - 1.
#[derive(Clone, Copy, Default)]
pub(crate) struct Counts {
    /// The turns.
    pub(crate) turns: u64,
    /// What was counted in them.
    pub(crate) report: DurableReport,
}

impl Counts {
    /// Counts a turn.
    pub(crate) fn add(&mut self, turn: DurableReport) {
        self.turns = self.turns.saturating_add(1);
        self.report = DurableReport {
            report: added(self.report.report, turn.report),
            failed_keeps: self.report.failed_keeps.saturating_add(turn.failed_keeps),
            lost: self.report.lost.saturating_add(turn.lost),
        };
    }

    /// Writes the counts, and those of keeps that failed if there were any.
    ///
    /// # Errors
    ///
    /// L7 if writing fails.
    pub(crate) fn write_to<W: Write>(&self, out: &mut W) -> Result<(), LineFault> {
        self.write_lines(out).map_err(LineFault::of_writing)
    }

    fn write_lines<W: Write>(&self, out: &mut W) -> io::Result<()> {
        write_counts(self.turns, self.report.report, out)?;
        if self.report.failed_keeps > 0 {
            write_failed_keeps(self.report, out)?;
        }
        out.flush()
    }
}

pub(crate) fn added(all: Report, turn: Report) -> Report {
    Report {
        received: all.received.saturating_add(turn.received),
        sent: all.sent.saturating_add(turn.sent),
        refused: all.refused.saturating_add(turn.refused),
        faults: all.faults.saturating_add(turn.faults),
    }
}

fn write_failed_keeps<W: Write>(report: DurableReport, out: &mut W) -> io::Result<()> {
    let DurableReport {
        failed_keeps,
        lost,
        ..
    } = report;
    writeln!(out, "failed keeps {failed_keeps} unsent datagrams {lost}")
}

fn write_counts<W: Write>(turns: u64, report: Report, out: &mut W) -> io::Result<()> {
    let Report {
        received,
        sent,
        refused,
        faults,
    } = report;
    writeln!(
        out,
        "turns {turns} received {received} sent {sent} refused {refused} faults {faults}"
    )
}

/// Whether the snapshot was kept in the last turn.
#[derive(Clone, Copy)]
pub(crate) enum LastKeep {
    /// It was, or nothing had to be kept.
    Done,
    /// It couldn't be kept, and nothing was sent.
    Failed,
}

impl LastKeep {
    /// Takes a turn in, and writes if it isn't like the turn before. So it is written once that the
    /// snapshot can't be kept any more, and once that it is kept again.
    pub(crate) fn note<E: Write>(&mut self, turn: DurableReport, err: &mut E) {
        let (keep, text) = match (*self, turn.failed_keeps) {
            (LastKeep::Failed, 0) => (LastKeep::Done, "is kept again"),
            (LastKeep::Done, 1..) => (
                LastKeep::Failed,
                "can't be kept: nothing is sent until it can",
            ),
            _ => return,
        };
        *self = keep;
        // If that can't be written, it is in the counts.
        let _ = writeln!(err, "babel: the snapshot {text}");
    }
}
