/// What the line of the answer says of good logs, besides what these show: the answer is `yes`.
#[derive(Clone, Copy)]
pub struct ShownAnswer<'a> {
    /// The status that goes with it: 0, or 1 where other nodes lead than are named.
    pub status: u8,
    /// The places of the nodes that are to lead, if some are named.
    pub named: Option<&'a [u64]>,
}
