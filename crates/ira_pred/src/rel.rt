/// How a number of a state compares with that of a clause.
#[derive(Clone, Copy, Debug, PartialEq, Eq)]
pub enum Rel {
    Less,
    Equal,
    Greater,
}
