//! An allocator over room that is lent, and never given back.
#![tactic(auto)]

mod lent;
mod room;

pub use lent::Lent;
pub use room::Room;
