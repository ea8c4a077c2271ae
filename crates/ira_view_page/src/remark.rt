/// What stands beside carets.
#[derive(Clone, Copy, Debug, PartialEq, Eq)]
pub enum Remark {
    /// What is due there.
    Due,
    /// What else there is to say of it.
    Note,
}
