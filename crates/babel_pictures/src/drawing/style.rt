//! The colours of a picture, for light and for dark screens.

/// The style of an SVG.
pub(crate) const STYLE: &str = "\
<style>
svg { font: 12px 'DejaVu Sans', Verdana, system-ui, sans-serif; }
.ground { fill: #ffffff; }
text { fill: #1f2328; }
.title { font-size: 15px; font-weight: 600; }
.quiet { fill: #59636e; font-size: 11px; }
.link { stroke: #b7bec7; stroke-width: 2; fill: none; }
.lossy { stroke-dasharray: 2 4; stroke: #9a6700; }
.cut { stroke-dasharray: 7 6; stroke: #d1242f; }
.cost { font-size: 10px; fill: #59636e; stroke: #ffffff; stroke-width: 4; paint-order: stroke; }
.hop { stroke: #0969da; stroke-width: 2.2; fill: none; }
.head { fill: #0969da; }
.box { fill: #f6f8fa; stroke: #59636e; stroke-width: 1.2; }
.own { fill: #0969da; stroke: #0969da; }
text.in { fill: #ffffff; font-weight: 600; }
.lost { fill: #ffebe9; stroke: #d1242f; }
.none { fill: #fff0ee; }
.down { fill: #ffffff; stroke: #8c959f; stroke-dasharray: 3 3; }
.line { stroke: #d0d7de; stroke-width: 1; }
.mark { stroke: #59636e; stroke-width: 1; stroke-dasharray: 3 3; }
.moment { stroke: #0969da; stroke-width: 1.5; }
.small { font-size: 10px; }
.v0 { fill: #b6dcfb; } .v1 { fill: #bfe8c0; } .v2 { fill: #f7dfa0; } .v3 { fill: #e2d0fb; }
.v4 { fill: #fbd0c2; } .v5 { fill: #b9e6e4; } .v6 { fill: #f6cfe4; } .v7 { fill: #dcdfa8; }
@media (prefers-color-scheme: dark) {
.ground { fill: #0d1117; }
text { fill: #e6edf3; }
.quiet { fill: #9198a1; }
.link { stroke: #57606a; }
.lossy { stroke: #d29922; }
.cut { stroke: #f85149; }
.cost { fill: #9198a1; stroke: #0d1117; }
.hop { stroke: #58a6ff; }
.head { fill: #58a6ff; }
.box { fill: #21262d; stroke: #9198a1; }
.own { fill: #1f6feb; stroke: #58a6ff; }
.lost { fill: #4b1113; stroke: #f85149; }
.none { fill: #2b1416; }
.down { fill: #0d1117; stroke: #6e7681; }
.line { stroke: #30363d; }
.mark { stroke: #9198a1; }
.moment { stroke: #58a6ff; }
.v0 { fill: #0c4a80; } .v1 { fill: #1b5a2b; } .v2 { fill: #66500d; } .v3 { fill: #4d3580; }
.v4 { fill: #75351f; } .v5 { fill: #135f60; } .v6 { fill: #71315a; } .v7 { fill: #52561a; }
}
</style>
<defs>
<marker id=\"head\" viewBox=\"0 0 10 10\" refX=\"9\" refY=\"5\" markerWidth=\"10\" \
markerHeight=\"10\" \
markerUnits=\"userSpaceOnUse\" orient=\"auto\"><path class=\"head\" d=\"M0 0L10 5L0 10z\"/></marker>
</defs>
";
