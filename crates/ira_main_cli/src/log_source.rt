/// Where the logs of a ring come from, as the words name them.
#[derive(Drop)]
pub enum LogSource<'a> {
    /// The files of these names, in the order of the ring's places.
    Files(Vec<&'a str>),
    /// The files `0.log`, `1.log` and so on of this folder, as many as the first says that the ring has nodes.
    Folder(&'a str),
}
