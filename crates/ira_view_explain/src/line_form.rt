use crate::field::Field;
use ira_event::skip_word;

/// The lines of a log after its head: the first version that has them, the words that they begin with, and what
/// stands after these. Those of version 2 come first.
static FORMS: [(u8, &str, &[Field]); 7] = [
    (2, "yield", &[]),
    (2, "send reset ", &[Field::Hop]),
    (2, "recv reset ", &[Field::Hop]),
    (1, "draw ", &[Field::Id]),
    (
        1,
        "send ",
        &[Field::Round, Field::Id, Field::Hop, Field::Bit],
    ),
    (
        1,
        "recv ",
        &[Field::Round, Field::Id, Field::Hop, Field::Bit],
    ),
    (1, "end ", &[Field::Count]),
];

/// The fields of a line in a log of this version, by the words that it begins with, and what follows these.
pub(crate) fn fields_of(line: &[u8], version: u8) -> Option<(&'static [Field], &[u8])> {
    for (first, words, fields) in &FORMS {
        if *first <= version
            && let Some(rest) = skip_word(line, words.as_bytes())
        {
            return Some((*fields, rest));
        }
    }
    None
}
