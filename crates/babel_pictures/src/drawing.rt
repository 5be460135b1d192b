//! Pictures of networks: SVG that needs nothing else, and DOT for Graphviz.
//!
//! - `pictures`: what a picture shows, as plain structs.
//! - `shapes`: the shape of a network, if its links have one.
//! - `places`: where the nodes are drawn; `forces` places those of a network without a shape.
//! - `svg`: the whole SVG; `network` and `timeline` are its two parts, and `style` has its colours.
//!   In the timeline `marks` are the steps of the plan, and `scale` where a moment is.
//! - `elements`: the lines and texts of both.
//! - `dot`: the file for Graphviz.
//! - `texts`: escaped and shortened texts; `numbers`: floats, which nothing but drawing needs.

mod dot;
mod elements;
mod forces;
mod marks;
mod network;
mod numbers;
mod pictures;
mod places;
mod scale;
mod shapes;
mod style;
mod svg;
mod texts;
mod timeline;

pub use dot::write_dot;
pub use pictures::{DrawnLink, DrawnNode, Hop, LinkState, Mark, Picture, Row, Span, Timeline};
pub use shapes::{Form, form_of};
pub use svg::write_svg;
