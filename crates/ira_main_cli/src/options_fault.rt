ghost use Rattle.std.specs.Prelude.{◌≡◌};
ghost use Rattle.clap.specs.declared.error.kind.ErrorKind.TheVariants as kind;
ghost use Rattle.ira_main_cli.specs.declared.options_fault.OptionsFault.TheVariants as options;

use clap::error::ErrorKind;
use std::alloc::AllocError;

/// Why options and names that the command line takes ask for nothing.
#[derive(Clone, Copy)]
pub enum OptionsFault {
    /// The logs are named both by files and by a folder, or by neither.
    Sources,
    /// Folders are to be judged each, and none are named, or one as that of a ring's logs.
    Folders,
    /// Folders are to be explained each, and a question is named, or anything of one.
    EachAndQuestion,
    /// One of the folders to be judged each has an empty name.
    EmptyFolder,
    /// A question is named, and something is expected of the election.
    ExpectationAndQuestion,
    /// A question is named both by a file and by a sentence, or by neither where one is due.
    Question,
    /// A case is named, and no question.
    CaseWithoutQuestion,
    /// A certificate is named, and no question.
    CertificateWithoutQuestion,
    /// A case and a certificate are named.
    CaseAndCertificate,
    /// A moment is named both by a cut and by a question.
    CutAndQuestion,
    /// A value isn't a list of numbers with commas between them, each below 2^64.
    NoNumbers,
    /// How many nodes a ring has is said both by a number and by a folder, or by neither.
    Size,
    /// A value is neither of the two kinds of start.
    Start,
    /// There is no guide on what is named.
    Topic,
    /// The words don't begin with the name of a command. The command line takes no such words.
    Command,
    /// An option or a name that a command needs has no value. Nor does it take such.
    Missing,
    /// A value isn't a number below 2^64, or past the most that it may be. Nor does it take such.
    NoNumber,
    /// A growth was refused.
    OutOfMemory,
}

impl OptionsFault {
    ghost use Rattle.ira_main_cli.specs.declared.options_fault.OptionsFault.TheVariants as options;

    pub fn kind(self) -> ErrorKind
        ensures { self ≡ options.OutOfMemory → result ≡ kind.OutOfMemory }
    {
        match self {
            OptionsFault::Sources
            | OptionsFault::Folders
            | OptionsFault::EachAndQuestion
            | OptionsFault::ExpectationAndQuestion
            | OptionsFault::CaseAndCertificate
            | OptionsFault::CutAndQuestion
            | OptionsFault::Question
            | OptionsFault::Size => ErrorKind::ArgumentConflict,
            OptionsFault::CaseWithoutQuestion | OptionsFault::CertificateWithoutQuestion => {
                ErrorKind::MissingRequiredArgument
            }
            OptionsFault::Command
            | OptionsFault::EmptyFolder
            | OptionsFault::Missing
            | OptionsFault::NoNumber
            | OptionsFault::NoNumbers
            | OptionsFault::Start
            | OptionsFault::Topic => ErrorKind::ValueValidation,
            OptionsFault::OutOfMemory => ErrorKind::OutOfMemory,
        }
    }

    pub fn text(self) -> &'static str {
        match self {
            OptionsFault::Sources => "the logs are named either by <LOG>... or by --dir <DIR>",
            OptionsFault::Folders => "--each and --sum take folders alone: --each <DIR>...",
            OptionsFault::EachAndQuestion =>
                "--each goes with none of --question, --ask, --case and --cert",
            OptionsFault::EmptyFolder => "--each takes names of folders, and none is empty",
            OptionsFault::ExpectationAndQuestion => {
                "--question <Q> and --ask <SENTENCE> go with neither --over nor --leads <P,..|any|FILE>"
            }
            OptionsFault::Question => {
                "the question is named either by --question <Q> or by --ask <SENTENCE>"
            }
            OptionsFault::CaseWithoutQuestion => {
                "--case <K> needs --question <Q> or --ask <SENTENCE>"
            }
            OptionsFault::CertificateWithoutQuestion => {
                "--cert <C> needs --question <Q> or --ask <SENTENCE>"
            }
            OptionsFault::CaseAndCertificate => "--case <K> and --cert <C> exclude one another",
            OptionsFault::CutAndQuestion => {
                "--at <N0,N1,..> goes with neither --question <Q> nor --ask <SENTENCE>"
            }
            OptionsFault::NoNumbers => {
                "--lost <P,..> and --at <N0,N1,..> are numbers with commas between them, as 2,3"
            }
            OptionsFault::Size => "the ring's size is said either by --nodes <N> or by --dir <DIR>",
            OptionsFault::Start => "--start <S> is initiator or passive",
            OptionsFault::Topic => "guide [TOPIC] is questions or logs",
            OptionsFault::Command => "a command is missing",
            OptionsFault::Missing => "a value is missing",
            OptionsFault::NoNumber => "a value is no number, or past its limit",
            OptionsFault::OutOfMemory => "out of memory",
        }
    }
}

impl From<AllocError> for OptionsFault {
    ghost from_gives = { λ _ f. f ≡ options.OutOfMemory };

    fn from(_refused: AllocError) -> OptionsFault {
        OptionsFault::OutOfMemory
    }
}
