use crate::section_fault::SectionFault;

/// What is said of a section that is to show why no consistent cut meets a case.
#[derive(Clone, Copy, Debug, PartialEq, Eq)]
pub enum Verdict {
    /// It is sound.
    Yes,
    /// It isn't: it has this fault.
    No(SectionFault),
}
