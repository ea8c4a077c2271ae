/// How many nodes a ring has.
#[derive(Clone, Copy)]
pub enum AskedSize<'a> {
    /// So many: any number, and not only a ring's size.
    Nodes(u64),
    /// As many as the first log in this folder says.
    Folder(&'a str),
}
