use ira_cert::SectionFault;
use ira_cert_text::CertFault;
use ira_event::{HeadFault, LogFault};
use ira_node::StepFault;
use ira_order::MatchFault;
use ira_pred::AskFault;

/// Why the answer is no: the first reason that holds, in this order.
#[derive(Clone, Copy, Debug, PartialEq, Eq)]
pub enum Reason {
    /// A text is no log's. `number` is the text's number in the list of texts, from 0.
    Log {
        number: usize,
        fault: LogFault,
    },
    /// The logs aren't those of one ring, each at its place, and all of one version.
    Heads(HeadFault),
    /// A receipt has no sending, or another message or reset than its sending.
    Match(MatchFault),
    /// Events wait for one another in a circle, so that the logs have no order.
    Circle,
    /// An event of a node has no step. `place` is the node's, and events count from 1.
    Replay {
        place: u8,
        position: u32,
        fault: StepFault,
    },
    /// The text of the question is no question's.
    Question(AskFault),
    /// The question is asked of a ring of another size than the logs'.
    QuestionSize,
    /// The text of the certificate is no certificate's.
    Certificate(CertFault),
    /// The certificate is for a ring of another size than the logs'.
    CertificateSize,
    /// The certificate has not one section for each case.
    Sections {
        wanted: usize,
        found: usize,
    },
    /// A section isn't sound for its case, the first such. Cases and their sections count from 0.
    Section {
        case: usize,
        fault: SectionFault,
    },
}
