//! Numbers with fractions, for drawing alone.

use std::f64::consts::PI;
use std::num::{
    nearest_u64_to_f64, nearest_usize_to_f64, saturating_f64_to_i64, saturating_f64_to_u64,
};

/// A place in the picture, or a way from one place to another, in pixels.
#[derive(Clone, Copy)]
pub(crate) struct Place {
    /// To the right.
    pub(crate) x: f64,
    /// Downwards.
    pub(crate) y: f64,
}

impl Place {
    pub(crate) fn new(x: f64, y: f64) -> Place {
        Place { x, y }
    }

    /// The place that is further by the way.
    pub(crate) fn plus(self, way: Place) -> Place {
        Place::new(self.x + way.x, self.y + way.y)
    }

    /// The way from the other place to this one.
    pub(crate) fn minus(self, other: Place) -> Place {
        Place::new(self.x - other.x, self.y - other.y)
    }

    /// The way so many times.
    pub(crate) fn times(self, factor: f64) -> Place {
        Place::new(self.x * factor, self.y * factor)
    }

    /// How long the way is; not 0, so that it can be divided by.
    pub(crate) fn length(self) -> f64 {
        let square = self.x * self.x + self.y * self.y;
        if square > 0.0001 { square.sqrt() } else { 0.01 }
    }
}

/// The whole number that is nearest.
pub(crate) fn whole(x: f64) -> i64 {
    if x < 0.0 {
        saturating_f64_to_i64(x - 0.5)
    } else {
        saturating_f64_to_i64(x + 0.5)
    }
}

/// What is after the point of a number above 0.
pub(crate) fn fraction(x: f64) -> f64 {
    x - nearest_u64_to_f64(saturating_f64_to_u64(x))
}

/// A count as a number with a fraction.
pub(crate) fn number(count: usize) -> f64 {
    nearest_usize_to_f64(count)
}

/// A time as a number with a fraction.
pub(crate) fn time(centiseconds: u64) -> f64 {
    nearest_u64_to_f64(centiseconds)
}

/// The greater one.
pub(crate) fn greater(x: f64, y: f64) -> f64 {
    if x < y { y } else { x }
}

/// The smaller one.
pub(crate) fn smaller(x: f64, y: f64) -> f64 {
    if y < x { y } else { x }
}

/// The place on a circle of radius 1 after a part of a turn, 0 to 1. A turn begins at the top and
/// goes to the right.
pub(crate) fn on_circle(part: f64) -> Place {
    let angle = part * 2.0 * PI;
    let quarter = if part < 0.25 {
        angle + 0.5 * PI
    } else {
        angle - 1.5 * PI
    };
    Place::new(0.0 - sine(angle - PI), 0.0 - sine(quarter))
}

/// The sine of an angle from -π to π, by the series of Taylor.
fn sine(angle: f64) -> f64 {
    let square = angle * angle;
    let mut factor = 1.0;
    for step in 0..9usize {
        let two = 2.0 * number(9 - step);
        factor = 1.0 - square / (two * (two + 1.0)) * factor;
    }
    angle * factor
}
