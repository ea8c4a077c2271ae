ghost use Rattle.std.specs.Prelude.{◌≡◌, ◌≤◌, ◌↔◌, IsTrue, length};
ghost use Rattle.ira_cert_text.specs.Certificate.{IsStep};
ghost use Rattle.ira_cert_text.specs.CertText.{step_text};

use crate::text_len::number_len;
use ira_event::MAX_RECORDS;

/// One elimination: state `pos` of node `node` is ruled out by state `other_pos` of node `other`.
/// State `p` of a node is the one after `p` of its events.
#[derive(Clone, Copy, Debug, PartialEq, Eq)]
pub struct CertStep {
    pub node: u8,
    pub pos: u32,
    pub other: u8,
    pub other_pos: u32,
}

impl CertStep {
    /// Whether the text of a certificate of so many nodes may have the step.
    pub(crate) fn is_in_range(&self, nodes: u8) -> bool
        ensures { IsTrue result ↔ IsStep nodes self.now }
    {
        let most = MAX_RECORDS as u32;
        self.node < nodes && self.pos <= most && self.other < nodes && self.other_pos <= most
    }

    /// How many bytes the step's line has.
    pub(crate) fn text_len(&self) -> usize
        ensures value { result ≡ length (step_text self.now) }
        ensures short { result ≤ 52 }
    {
        number_len(u32::from(self.node))
            + number_len(self.pos)
            + number_len(u32::from(self.other))
            + number_len(self.other_pos)
            + b"drop   by  \n".len()
    }
}
