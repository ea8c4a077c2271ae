use crate::unsound::Unsound;

/// Why a section isn't sound.
#[derive(Clone, Copy, Debug, PartialEq, Eq)]
pub enum SectionFault {
    /// The first step that isn't sound, counted from 0, and why.
    Step(usize, Unsound),
    /// All steps are sound, and after them this node, which the section calls spent, isn't asked or has
    /// a candidate left.
    NotSpent(u8),
}
