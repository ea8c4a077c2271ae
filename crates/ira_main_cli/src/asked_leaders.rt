/// Who is to lead when the logs end.
#[derive(Drop)]
pub enum AskedLeaders<'a> {
    /// Some node, whichever.
    Any,
    /// The nodes at these places, and no other. They are any numbers, and not only places of the ring.
    Places(Vec<u64>),
    /// The nodes at the places in the file of this name, and no other.
    File(&'a str),
}
