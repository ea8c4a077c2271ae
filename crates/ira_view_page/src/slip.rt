ghost use Rattle.ira_view_page.specs.Slip.{IsFormatSlip};
ghost use Rattle.ira_view_page.specs.Printable.{IsPrintable};

/// A slip that a person makes who writes logs by hand or by a program.
#[derive(Clone, Copy, Debug, PartialEq, Eq)]
pub enum Slip {
    CarriageReturn,
    ByteOrderMark,
    Tab,
    EmptyLine,
    SpaceAtEnd,
    TwoSpaces,
    OtherBit,
    LeadingZero,
    Comment,
    SignOrPoint,
    OfVersionTwo,
}

impl Slip {
    /// What the file's format does to a line.
    pub fn of_format(line: &[u8]) -> Option<Slip>
        ensures { IsFormatSlip line.now result }
    {
        if line.ends_with(b"\r") {
            return Some(Slip::CarriageReturn);
        }
        if line.starts_with(b"\xef\xbb\xbf") {
            return Some(Slip::ByteOrderMark);
        }
        None
    }

    /// What it is, and what to write.
    pub fn hint(self) -> &'static str
        ensures { IsPrintable result.now }
    {
        match self {
            Slip::CarriageReturn => {
                "the line ends in a carriage return: `file` says CRLF. Write line feeds alone; to mend a file: \
                 sed -i 's/\\r$//' FILE"
            }
            Slip::ByteOrderMark => {
                "a byte order mark stands in front. Write ASCII; to mend a file: sed -i '1s/^\\xEF\\xBB\\xBF//' FILE"
            }
            Slip::Tab => "a tab: fields are parted by one space.",
            Slip::EmptyLine => {
                "an empty line: each line after the head is a record or the end line."
            }
            Slip::SpaceAtEnd => "a space at the end of the line.",
            Slip::TwoSpaces => "two spaces: fields are parted by one.",
            Slip::OtherBit => "the bit is written `clean` or `dirty`, in small letters.",
            Slip::LeadingZero => "a number has no zeros in front.",
            Slip::Comment => "there are no comments.",
            Slip::SignOrPoint => "numbers are plain: digits alone.",
            Slip::OfVersionTwo => {
                "yields and resets are records of version 2: begin each log of the ring with `irlog 2`."
            }
        }
    }
}
