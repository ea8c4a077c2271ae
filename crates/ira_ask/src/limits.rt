/// The most bytes that a sentence has.
pub const MAX_SENTENCE: usize = 65536;
