/// Why words ask for nothing.
#[derive(Debug, Drop, thiserror::Error)]
pub enum WordsFault {
    /// They were refused, with this text. Asking for help is refused with the help.
    #[error("{0}")]
    Refused(String),
    /// A growth was refused.
    #[error("out of memory")]
    OutOfMemory,
}
