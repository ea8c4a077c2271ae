use crate::asked_size::AskedSize;

/// A sentence, and the ring of which its question is to be.
#[derive(Clone, Copy)]
pub struct AskRequest<'a> {
    pub size: AskedSize<'a>,
    pub sentence: &'a str,
}
