/// A ring to run, as the words name it.
#[derive(Clone, Copy)]
pub struct RunRequest<'a> {
    /// How many nodes the ring is to have: any number, and not only a ring's size.
    pub nodes: u64,
    pub seed: u64,
    /// The folder that the logs are written to.
    pub folder: &'a str,
    /// How many nodes are initiators, from place 0 on; all where no number was given.
    pub initiators: Option<u64>,
    /// How many IDs each node is given to draw.
    pub draws: u32,
    /// The most records that a log may have.
    pub cap: u64,
    /// How many terms there are: any number, and not only one that a run may have.
    pub terms: u64,
    /// Whether one thread runs all nodes.
    pub is_alone: bool,
}
