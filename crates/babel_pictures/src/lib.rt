//! Pictures of networks, and those of simulated ones.
//!
//! - `drawing` draws networks with a timeline, as SVG and as DOT for Graphviz.
//! - `scenes` has what is drawn of a simulated network at a moment.
#![tactic(auto)]

mod drawing;
mod scenes;

pub use drawing::{
    DrawnLink, DrawnNode, Form, Hop, LinkState, Mark, Picture, Row, Span, Timeline, form_of,
    write_dot, write_svg,
};
pub use scenes::{Scene, picture_of};
