//! A page to move in what happened in a ring: what is told of it as JSON, between a style and a script that draws it.
#![tactic(auto)]

mod frame;
mod page;
mod script;

pub use page::html_page;
