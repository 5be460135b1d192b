//! The whole SVG: a title, the network, a legend and the timeline.

use crate::drawing::network::write_network;
use crate::drawing::numbers::{greater, whole};
use crate::drawing::pictures::Picture;
use crate::drawing::places::{Layout, place_nodes};
use crate::drawing::style::STYLE;
use crate::drawing::texts::{Escaped, Seconds};
use crate::drawing::timeline::{timeline_height, write_timeline};
use std::alloc::Global;
use std::io::{self, Write};

/// The width of what isn't the network, in pixels.
const MIN_WIDTH: i64 = 920;

/// The room around everything, in pixels.
pub(crate) const MARGIN: i64 = 20;

/// Where the network begins, in pixels from above.
const TOP: i64 = 78;

/// Writes a picture as SVG.
pub fn write_svg<W: Write>(alloc: Global, picture: &Picture, out: &mut W) -> io::Result<()> {
    let layout = place_nodes(alloc, picture)?;
    write_drawing(alloc, picture, &layout, out)
}

fn write_drawing<W: Write>(
    alloc: Global,
    picture: &Picture,
    layout: &Layout,
    out: &mut W,
) -> io::Result<()> {
    let inner = whole(greater(layout.size.x, 0.0)).clamp(MIN_WIDTH, i64::MAX / 8);
    let width = inner + 2 * MARGIN;
    let drawn = whole(layout.size.y).clamp(0, i64::MAX / 8);
    let below = TOP + drawn + 24;
    let height = below.saturating_add(timeline_height(&picture.timeline));
    write_start(picture, width, height, out)?;
    let indent = MARGIN + (inner - whole(layout.size.x).clamp(0, inner)) / 2;
    writeln!(out, "<g transform=\"translate({indent} {TOP})\">")?;
    write_network(picture, layout, out)?;
    writeln!(out, "</g>\n<g transform=\"translate({MARGIN} {below})\">")?;
    write_timeline(alloc, picture, inner, out)?;
    writeln!(out, "</g>\n</svg>")
}

/// Writes what comes before the network.
fn write_start<W: Write>(
    picture: &Picture,
    width: i64,
    height: i64,
    out: &mut W,
) -> io::Result<()> {
    let title = Escaped(&picture.title);
    writeln!(
        out,
        "<svg xmlns=\"http://www.w3.org/2000/svg\" width=\"{width}\" height=\"{height}\" \
viewBox=\"0 0 {width} {height}\" role=\"img\">\n\
<title>{title}</title>\n\
{STYLE}\
<rect class=\"ground\" width=\"{width}\" height=\"{height}\"/>\n\
<text class=\"title\" x=\"{MARGIN}\" y=\"28\">{title}</text>"
    )?;
    write_legend(Seconds(picture.timeline.moment), out)
}

/// Writes what the lines and boxes mean.
fn write_legend<W: Write>(moment: Seconds, out: &mut W) -> io::Result<()> {
    write!(
        out,
        "<g transform=\"translate({MARGIN} 50)\">\n\
<text class=\"quiet\" y=\"4\">after {moment}:</text>\n{LEGEND}"
    )
}

/// The legend after its first words.
const LEGEND: &str = "\
<path class=\"hop\" marker-end=\"url(#head)\" d=\"M100 0h34\"/>
<text class=\"quiet\" x=\"141\" y=\"4\">next hop</text>
<path class=\"link\" d=\"M214 0h34\"/>
<text class=\"quiet\" x=\"255\" y=\"4\">link</text>
<path class=\"link lossy\" d=\"M294 0h34\"/>
<text class=\"quiet\" x=\"335\" y=\"4\">loses datagrams</text>
<path class=\"link cut\" d=\"M440 0h34\"/>
<text class=\"quiet\" x=\"481\" y=\"4\">cut</text>
<rect class=\"own\" x=\"520\" y=\"-8\" width=\"26\" height=\"16\" rx=\"8\"/>
<text class=\"quiet\" x=\"552\" y=\"4\">announces</text>
<rect class=\"lost\" x=\"632\" y=\"-8\" width=\"26\" height=\"16\" rx=\"8\"/>
<text class=\"quiet\" x=\"664\" y=\"4\">no route</text>
<rect class=\"down\" x=\"734\" y=\"-8\" width=\"26\" height=\"16\" rx=\"8\"/>
<text class=\"quiet\" x=\"766\" y=\"4\">stopped</text>
</g>
";
