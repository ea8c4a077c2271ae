use ira_view_page::NamedText;

/// The files of a ring's logs, by place, and of a question about them.
#[derive(Clone, Copy, Debug)]
pub struct AskedFiles<'a> {
    pub logs: &'a [NamedText<'a>],
    pub question: &'a NamedText<'a>,
}
