/// The columns that are asked for, each of any number.
#[derive(Clone, Copy, Debug)]
pub struct ColumnRange {
    /// The first one; that of all where none is given.
    pub from: Option<u64>,
    /// The last one; that of all where none is given.
    pub to: Option<u64>,
}
