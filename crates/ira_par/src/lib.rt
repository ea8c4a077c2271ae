//! The checker of certificates on several threads: the steps of sections are judged range by range.
#![tactic(auto)]

mod candidate_table;
mod ranges;
mod share;
mod shares;
mod split;
mod tables;
mod task;
mod unsound_section;

pub use split::{check_one_by_one, check_split, split_sections};
pub use unsound_section::UnsoundSection;
