//! The style sheet of a picture, and what its arrows end with.

use crate::svg::Svg;
use std::alloc::Allocator;

/// What doesn't depend on the colours.
const SHAPES: &str = concat!(
    "text{font:12px system-ui,sans-serif}.t{font-size:15px;font-weight:600}.n{text-anchor:end}",
    ".k{text-anchor:middle}.q{font-size:10px;text-anchor:middle}",
    ".l text{font-size:11px;text-anchor:middle}.cl{font-size:10px;text-anchor:end}path{fill:none}",
    ".c{stroke-width:12}.a{stroke-width:12}.p{stroke-width:4}.w,.dl{stroke-width:18}",
    ".u{stroke-width:1;stroke-dasharray:2 3}.o{stroke-width:3}",
    ".e path{stroke-width:7;stroke-linecap:round}.e .d{stroke-width:8;stroke-linecap:butt}",
    ".j{stroke-width:7;stroke-linecap:round}.j.d{stroke-width:8;stroke-linecap:butt}",
    ".bt{paint-order:stroke;stroke-width:4px;stroke-linejoin:round}",
    ".e path:hover{stroke-width:14}.m{stroke-width:1.2}.b{stroke-width:2}.z{stroke-width:2.5}",
    ".y{stroke-dasharray:5 3}.h{stroke-width:2}.r{stroke-width:2}.f{opacity:.55}",
);

/// What a picture of more than one term has besides.
const TERM_SHAPES: &str = ".v{stroke-width:12}.x{stroke-width:4}.i{stroke-width:1.6}";

/// What arrows end with.
pub(crate) const MARKERS: &str = concat!(
    "<marker id=\"A\" viewBox=\"0 0 9 8\" refX=\"11\" refY=\"4\" markerWidth=\"9\" markerHeight=\"8\"",
    " orient=\"auto\" markerUnits=\"userSpaceOnUse\">",
    "<path d=\"M0 0L9 4L0 8z\"/></marker>",
    "<marker id=\"Z\" viewBox=\"0 0 9 8\" refX=\"11\" refY=\"4\" markerWidth=\"9\" markerHeight=\"8\"",
    " orient=\"auto\" markerUnits=\"userSpaceOnUse\">",
    "<path d=\"M0 0L9 4L0 8z\"/></marker>",
    "<marker id=\"B\" viewBox=\"0 0 9 8\" refX=\"11\" refY=\"4\" markerWidth=\"9\" markerHeight=\"8\"",
    " orient=\"auto\" markerUnits=\"userSpaceOnUse\">",
    "<path d=\"M0 0L9 4L0 8z\"/></marker>",
    "<marker id=\"X\" viewBox=\"0 0 8 8\" refX=\"14\" refY=\"4\" markerWidth=\"8\" markerHeight=\"8\"",
    " orient=\"auto\" markerUnits=\"userSpaceOnUse\">",
    "<path d=\"M1 1L7 7M1 7L7 1\" stroke-width=\"1.6\"/></marker>",
    "<marker id=\"F\" viewBox=\"0 0 8 8\" refX=\"6\" refY=\"4\" markerWidth=\"8\" markerHeight=\"8\"",
    " markerUnits=\"userSpaceOnUse\">",
    "<circle cx=\"4\" cy=\"4\" r=\"3\"/></marker>",
);

/// What has which colour, and what a picture of more than one term has besides.
macro_rules! colours {
    (
        background: $background:literal, ink: $ink:literal, mute: $mute:literal, grid: $grid:literal,
        message: $message:literal, choosing: $choosing:literal, active: $active:literal, passive: $passive:literal,
        leader: $leader:literal, yielding: $yielding:literal, named: $named:literal, moment: $moment:literal,
    ) => {
        (
            concat!(
                "text{fill:", $ink, "}.s,.q{fill:", $mute, "}.bg{fill:", $background, "}.g{stroke:", $grid, "}",
                ".c{stroke:", $choosing, "}.a{stroke:", $active, "}.p{stroke:", $passive, "}.w{stroke:", $leader, "}",
                ".u,.dl{stroke:", $mute, "}.o,.e,.j{stroke:", $ink, "}.m{stroke:", $message, "}.z{stroke:", $leader, "}",
                ".b{stroke:", $named, "}.bt{fill:", $named, ";stroke:", $background, "}",
                ".h{stroke:", $moment, "}.ht{fill:", $moment, "}#A path{fill:", $message, "}#Z path{fill:", $leader,
                "}#B path{fill:", $named, "}#X path{stroke:", $message, "}",
                "#F circle{stroke:", $message, ";fill:", $background, "}",
            ),
            concat!(".v{stroke:", $yielding, "}.i{stroke:", $background, "}"),
        )
    };
}

const LIGHT: (&str, &str) = colours! {
    background: "#fff", ink: "#1f2328", mute: "#6e7781", grid: "#eaeef2",
    message: "#57606a", choosing: "#e69f00", active: "#56b4e9", passive: "#c4cad1",
    leader: "#009e73", yielding: "#cc79a7", named: "#d1410c", moment: "#a8326e",
};

const DARK: (&str, &str) = colours! {
    background: "#0d1117", ink: "#f0f3f6", mute: "#9198a1", grid: "#21262d",
    message: "#a3acb6", choosing: "#c98a00", active: "#2b7bb0", passive: "#4c545d",
    leader: "#00b083", yielding: "#a85f88", named: "#ff8350", moment: "#f093c6",
};

/// Writes the style sheet.
pub(crate) fn write_style<A: Allocator>(out: &mut Svg<A>, has_terms: bool) {
    out.page.words("<style>");
    out.page.words(SHAPES);
    if has_terms {
        out.page.words(TERM_SHAPES);
    }
    out.page.words(LIGHT.0);
    if has_terms {
        out.page.words(LIGHT.1);
    }
    out.page.words("@media(prefers-color-scheme:dark){");
    out.page.words(DARK.0);
    if has_terms {
        out.page.words(DARK.1);
    }
    out.page.words("}</style>\n");
}
