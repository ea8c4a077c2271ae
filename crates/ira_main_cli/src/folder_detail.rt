/// How much is told of each of some folders.
#[derive(Clone, Copy)]
pub enum FolderDetail {
    /// Its line.
    Line,
    /// Its line, and of a no why it is so.
    Reasons,
}
