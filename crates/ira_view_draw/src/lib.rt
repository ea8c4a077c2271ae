//! Space-time diagrams of a ring's logs, as SVG.
#![tactic(auto)]

mod arrows;
mod class;
mod drawing;
mod frame;
mod grid;
mod headline;
mod highlight;
mod labels;
mod lanes;
mod legend;
mod marks;
mod moment_line;
mod stroke;
mod style;
mod svg;

pub use drawing::{draw, draw_refused};
