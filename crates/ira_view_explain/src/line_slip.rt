use crate::field::Field;
use crate::line_stop::DueInLine;
use ira_view_page::Slip;

/// What a line after the head of a log of this version shows, which goes on as none does from this byte on, where
/// something else is due.
pub(crate) fn slip_of_line(line: &[u8], byte: usize, due: DueInLine, version: u8) -> Option<Slip> {
    if let Some(slip) = Slip::of_format(line) {
        return Some(slip);
    }
    if version == 1 && is_of_version_2(line) {
        return Some(Slip::OfVersionTwo);
    }
    if line.is_empty() {
        return Some(Slip::EmptyLine);
    }
    let before = line.get(..byte)?.last().copied();
    let rest = line.get(byte..)?;
    match rest {
        [b'C' | b'D', ..] | b"true" | b"false" | b"0" | b"1"
            if due == DueInLine::Field(Field::Bit) => { Some(Slip::OtherBit) }
        [b'\t', ..] => Some(Slip::Tab),
        [b' ', ..] if rest.iter().all(|c| *c == b' ') => Some(Slip::SpaceAtEnd),
        [b' ', ..] if before == Some(b' ') => Some(Slip::TwoSpaces),
        [b'0'..=b'9', ..] if before == Some(b'0') => Some(Slip::LeadingZero),
        [b'#' | b'/' | b';', ..] => Some(Slip::Comment),
        [b'.' | b'-' | b'+', ..] if before.is_some() => Some(Slip::SignOrPoint),
        _ => None,
    }
}

/// Whether the line begins as one that only version 2 has.
fn is_of_version_2(line: &[u8]) -> bool {
    line.starts_with(b"yield")
        || line.starts_with(b"send reset ")
        || line.starts_with(b"recv reset ")
}
