ghost use Rattle.std.specs.Prelude.{◌≡◌, ◌↔◌, ℕ, List, Ok, None, Some, MatchOption, IfErr, IfOk, IsFalse, map};
ghost use Rattle.std.specs.List.{list_any};
ghost use Rattle.ira_event.specs.Result.{UnlessErr};
ghost use Rattle.ira_cert_text.specs.Certificate as certificate;
ghost use Rattle.ira_cert_text.specs.CertText.{IsCertText};
ghost use Rattle.ira_elim.specs.declared.found.Found.TheVariants.{Absent};
ghost use Rattle.ira_audit.specs.CheckAnswer.{IsCheckAnswer};
ghost use Rattle.ira_audit.specs.Findings.{AreFindings, HasPresent, IsCertificateOf, MakeNoCertificate, is_present};
ghost use Rattle.ira_audit.specs.declared.answer.Answer.{Answer};

use crate::reason::Reason;
use ira_cert_text::{Certificate, Section};
use ira_elim::Found;
use ira_event::{OutOfMemory, RingSize};
use std::alloc::Allocator;

/// What is found for a question about the logs of a ring.
#[derive(Drop)]
pub enum Findings<A: Allocator> {
    /// The first reason against the logs or the question.
    Refused(Reason),
    /// The ring's size, and what is found for each case of the question, in order.
    Cases {
        nodes: RingSize,
        found: Vec<Found<A>, A>,
    },
}

impl<A: Allocator + Clone> Findings<A> {
    /// Whether each case is absent.
    pub fn are_absent(&self) -> bool
        ensures { IsFalse result ↔ MakeNoCertificate self.now }
    {
        match self {
            Findings::Refused(_) => false,
            Findings::Cases { found, .. } => !has_present(found),
        }
    }

    /// The certificate of the sections that were found, if each case is absent; that there is none is answered
    /// whatever memory does. Where it is `readable`, `audit` says yes of the same logs, the question and the certificate's
    /// text; else its text is past the limits.
    pub fn into_certificate(self) -> Result<Option<Certificate<A>>, OutOfMemory>
        ensures some { (c : certificate.Certificate)
            → UnlessErr result (record {}) ((result ≡ Ok (Some c)) ↔ IsCertificateOf self c) }
        ensures none { (result ≡ Ok None) ↔ MakeNoCertificate self }
        ensures accepted { (texts : List (List ℕ)) (question text : List ℕ) (c : certificate.Certificate)
            → AreFindings texts question self → result ≡ Ok (Some c) → IsCertText text c
            → IsCheckAnswer texts question text Answer.Yes }
    {
        match self {
            Findings::Refused(_) => Ok(None),
            Findings::Cases { nodes, found } => {
                let Some(sections) = into_sections(found)? else {
                    return Ok(None);
                };
                Ok(Some(Certificate { nodes, sections }))
            }
        }
    }
}

/// Whether some case is present.
fn has_present<A: Allocator>(found: &[Found<A>]) -> bool
    ensures { result ≡ list_any is_present found.now }
{
    found.iter().any(|found| matches!(found, Found::Present(_)))
}

/// The sections that were found, if each case is absent.
fn into_sections<A: Allocator + Clone>(
    found: Vec<Found<A>, A>,
) -> Result<Option<Vec<Section<A>, A>>, OutOfMemory>
    ensures sections { IfOk result
        (λ sections. MatchOption sections (HasPresent found.items)
        (λ sections. found.items ≡ map Absent sections.items)) }
    ensures absent { IfErr result (λ _. ¬ (HasPresent found.items)) }
{
    if has_present(&found) {
        return Ok(None);
    }
    let mut sections = Vec::with_capacity(found.allocator().clone()?, found.len())?;
    for found in found {
        match found {
            Found::Absent(section) => sections.push(section)?,
            Found::Present(_) => unreachable!(),
        }
    }
    Ok(Some(sections))
}
