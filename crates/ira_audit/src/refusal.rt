ghost use Rattle.std.specs.Prelude.{◌≡◌};
ghost use Rattle.ira_audit.specs.Refusal.{answered, RefusesQuestion, RefusesCertificate};
ghost use Rattle.ira_audit.specs.declared.reason.Reason.TheVariants.{Heads};
ghost use Rattle.ira_audit.specs.declared.refusal.Refusal.TheVariants.{No, OutOfMemory};

use crate::answer::Answer;
use crate::reason::Reason;
use ira_cert_text::CertFault;
use ira_event::{HeadFault, OutOfMemory};
use ira_pred::AskFault;
use std::alloc::AllocError;

/// Why there is no yes: a reason, which never says that memory ran out, or a growth that was refused.
#[derive(Clone, Copy)]
pub enum Refusal {
    No(Reason),
    OutOfMemory,
}

/// The answer of texts that were judged: yes where nothing stands against them.
pub(crate) fn answer_of<T: Drop>(judged: Result<T, Refusal>) -> Result<Answer, OutOfMemory>
    ensures { result ≡ answered judged }
{
    match judged {
        Ok(_) => Ok(Answer::Yes),
        Err(Refusal::No(reason)) => Ok(Answer::No(reason)),
        Err(Refusal::OutOfMemory) => Err(OutOfMemory),
    }
}

impl From<HeadFault> for Refusal {
    ghost from_gives = { λ fault r. r ≡ No (Heads fault) };

    fn from(fault: HeadFault) -> Refusal {
        Refusal::No(Reason::Heads(fault))
    }
}

impl From<AskFault> for Refusal {
    ghost from_gives = { RefusesQuestion };

    fn from(fault: AskFault) -> Refusal {
        match fault {
            AskFault::OutOfMemory => Refusal::OutOfMemory,
            _ => Refusal::No(Reason::Question(fault)),
        }
    }
}

impl From<CertFault> for Refusal {
    ghost from_gives = { RefusesCertificate };

    fn from(fault: CertFault) -> Refusal {
        match fault {
            CertFault::OutOfMemory => Refusal::OutOfMemory,
            _ => Refusal::No(Reason::Certificate(fault)),
        }
    }
}

impl From<OutOfMemory> for Refusal {
    ghost from_gives = { λ _ r. r ≡ OutOfMemory };

    fn from(_refused: OutOfMemory) -> Refusal {
        Refusal::OutOfMemory
    }
}

impl From<AllocError> for Refusal {
    ghost from_gives = { λ _ r. r ≡ OutOfMemory };

    fn from(_refused: AllocError) -> Refusal {
        Refusal::OutOfMemory
    }
}
