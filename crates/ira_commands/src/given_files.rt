use ira_view_page::NamedText;
use std::alloc::Allocator;

/// The files that a command is given.
#[derive(Drop)]
pub struct GivenFiles<'f, A: Allocator> {
    /// A question's; without bytes where there is none.
    pub question: NamedText<'f>,
    /// A certificate's, likewise.
    pub certificate: NamedText<'f>,
    /// The names of those of the logs.
    pub names: Vec<String<A>, A>,
    /// These files, where the command needs their texts.
    pub logs: &'f [NamedText<'f>],
}
