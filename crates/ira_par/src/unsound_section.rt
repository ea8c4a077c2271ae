use ira_cert::SectionFault;

/// A section that isn't sound for the case of its number.
#[derive(Clone, Copy, Debug, PartialEq, Eq)]
pub struct UnsoundSection {
    /// Which section, counted from 0.
    pub section: usize,
    pub fault: SectionFault,
}
