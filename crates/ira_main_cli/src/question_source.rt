/// Where a question comes from, as the words name it.
#[derive(Clone, Copy)]
pub enum QuestionSource<'a> {
    /// The file of this name.
    File(&'a str),
    /// This sentence, which stands for one.
    Sentence(&'a str),
}
