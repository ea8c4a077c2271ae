//! What a space-time diagram of a ring's logs shows: marks, bands, debts and arrows, at columns.
#![tactic(auto)]

mod after;
mod arrow;
mod band;
mod column_range;
mod draw_fault;
mod lane;
mod laps;
mod links;
mod mark;
mod picture;
mod ring;
mod traffic;
mod window;

pub use after::After;
pub use arrow::{Arrow, Passage};
pub use band::{Band, BandKind, Span};
pub use column_range::ColumnRange;
pub use draw_fault::DrawFault;
pub use lane::Lane;
pub use mark::Mark;
pub use picture::{MAX_MARKS, Picture};
pub use window::Window;
