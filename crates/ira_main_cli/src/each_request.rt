use crate::expectation::Expectation;
use crate::folder_detail::FolderDetail;

/// Folders to judge, each for itself, as the words name them.
#[derive(Drop)]
pub struct EachRequest<'a> {
    /// Whether the answers are wanted as JSON.
    pub is_json: bool,
    /// What is expected of each election.
    pub expected: Expectation<'a>,
    pub detail: FolderDetail,
    /// Whether it is wanted below all answers how many of the runs had what.
    pub is_summed: bool,
    /// The folders, in the order of the answers. Each has the logs of a ring, named by their places.
    pub folders: Vec<&'a str>,
}
