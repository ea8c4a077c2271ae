ghost use Rattle.std.specs.Prelude.{◌≡◌, ◌≤◌, length};
ghost use Rattle.ira_order.specs.MatchWords.{match_fault_words};

use thiserror::Error;

/// The first receipt without its sending: that of the least link, and there the least receipt. Link
/// `i` leads from node `i` to the next node; its receipts count from 1.
#[derive(Clone, Copy, Debug, PartialEq, Eq, Error)]
pub enum MatchFault {
    /// The link's writer recorded fewer than `k` sendings.
    #[error("link {link}: receipt {k} {}", self.words())]
    NoSending { link: u8, k: u32 },
    /// The writer's sending number `k` was of another message or reset.
    #[error("link {link}: receipt {k} {}", self.words())]
    Differs { link: u8, k: u32 },
}

impl MatchFault {
    /// What a report says of the receipt.
    pub fn words(self) -> &'static str
        ensures words { result.now ≡ match_fault_words self }
        ensures short { length result.now ≤ 20 }
    {
        match self {
            MatchFault::NoSending { .. } => "has no sending",
            MatchFault::Differs { .. } => "differs",
        }
    }
}
