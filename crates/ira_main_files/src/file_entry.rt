/// What a name leads to, through all links.
#[derive(Clone, Copy, Debug, PartialEq, Eq)]
pub enum FileEntry {
    /// A file with bytes of its own.
    File(FileId),
    Folder,
    /// There is nothing of this name.
    Missing,
    /// A device or a pipe, or what the system doesn't tell.
    Other,
}

/// Which file it is: names of one file, by whatever path or link, have the same.
#[derive(Clone, Copy, Debug, PartialEq, Eq)]
pub struct FileId {
    pub device: u64,
    pub inode: u64,
}
