//! Where the moments of a timeline are.

use crate::drawing::numbers::{number, smaller, time, whole};
use crate::drawing::pictures::Timeline;

/// The width of the names on the left, in pixels.
pub(crate) const NAMES: i64 = 112;

/// Where a moment is, in pixels from the left, for rows of this width.
#[derive(Clone, Copy)]
pub(crate) struct Scale {
    pub(crate) begin: u64,
    pub(crate) end: u64,
    width: i64,
}

impl Scale {
    pub(crate) fn new(timeline: &Timeline, width: i64) -> Scale {
        Scale {
            begin: timeline.begin,
            end: timeline.end,
            width: width.clamp(NAMES + 100, 100_000) - NAMES,
        }
    }

    /// How many centiseconds the rows show; not 0.
    pub(crate) fn shown(&self) -> u64 {
        self.end.saturating_sub(self.begin).max(1)
    }

    /// Whether the rows show the moment.
    pub(crate) fn has(&self, moment: u64) -> bool {
        self.begin <= moment && moment <= self.end
    }

    /// Where the rows end, in pixels from the left.
    pub(crate) fn right(&self) -> i64 {
        NAMES.saturating_add(self.width)
    }

    /// Where the moment is; one that the rows don't show is at their begin or end.
    pub(crate) fn at(&self, moment: u64) -> i64 {
        let past = moment
            .clamp(self.begin.min(self.end), self.end)
            .saturating_sub(self.begin);
        let width = number(self.width.clamp(0, 100_000) as usize);
        let part = smaller(time(past) / time(self.shown()), 1.0);
        NAMES + whole(part * width).clamp(0, 100_000)
    }
}
