ghost use Rattle.std.specs.Prelude.{◌≡◌, length, min};
ghost use Rattle.ira_view_page.specs.Printable.{shown, shown_byte};

/// How many characters show these bytes; `usize::MAX` stands for itself and everything above.
pub fn shown_width(bytes: &[u8]) -> usize
    ensures { result ≡ min (length (shown bytes.now)) usize.MAX }
{
    let mut width = 0usize;
    for byte in bytes {
        width = width.saturating_add(byte_width(*byte));
    }
    width
}

/// How many characters show a byte.
pub(crate) fn byte_width(byte: u8) -> usize
    ensures { result ≡ length (shown_byte byte) }
{
    match byte {
        b'\t' | b'\r' => 2,
        b' '..=b'~' => 1,
        _ => 4,
    }
}
