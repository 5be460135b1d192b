//! The line of a terminal that shows how far a run is.

use clap::ArgMatches;
use std::io::{IsTerminal, Write};
use std::time::{Clock, Instant};

/// After how many seconds a terminal shows how far a run is.
const PATIENCE: u64 = 2;

/// The line, which is written at most once a second.
#[derive(Clone, Copy)]
pub(crate) struct Sight {
    /// When the run began, if a terminal shows how far it is.
    start: Option<Instant>,
    /// After how many seconds the line was written last.
    shown: u64,
}

impl Sight {
    /// The line of a run that begins. With `--json` there is none: the standard error has objects
    /// alone then, and `err` reports that it is a terminal, so that sentences are written to it.
    pub(crate) fn new<F: Clock, E: IsTerminal>(
        rt: &F,
        arguments: &ArgMatches<'_>,
        err: &E,
    ) -> Sight {
        let start = if err.is_terminal() && !arguments.get_flag("json") {
            Instant::now(rt).ok()
        } else {
            None
        };
        Sight {
            start,
            shown: PATIENCE,
        }
    }

    /// Writes how far the run is, in centiseconds. If writing fails, the run goes on.
    pub(crate) fn look<F: Clock, E: Write>(
        &mut self,
        rt: &F,
        now: u64,
        duration: u64,
        err: &mut E,
    ) {
        let Some(start) = self.start else {
            return;
        };
        let Ok(elapsed) = start.elapsed(rt) else {
            return;
        };
        if elapsed.as_secs() > self.shown {
            self.shown = elapsed.as_secs();
            let _ = write!(err, "\r{} of {} s", now / 100, duration / 100);
            let _ = err.flush();
        }
    }

    /// Clears the line.
    pub(crate) fn end<E: Write>(&self, err: &mut E) {
        if self.shown > PATIENCE {
            let _ = write!(err, "\r\x1b[K");
            let _ = err.flush();
        }
    }
}
