ghost use Rattle.std.specs.Prelude.{◌≡◌, ◌++◌, ◌∷◌, [], ℕ, Bool, List, Option, Some, None, IfOk};
ghost use Rattle.ira_cert.specs.Conjuncts.{HasPlacesOf};
ghost use Rattle.ira_cert_text.specs.declared.cert_draft.CertDraft.{CertDraft};
ghost use Rattle.ira_elim.specs.Found.{IsFound};
ghost use Rattle.ira_elim.specs.declared.found.Found.{Found};
ghost use Rattle.ira_audit.specs.DecidedCases.{AreDecided, AreDrafted, AreOfCases, IsAdded, IsCertifying};
ghost use Rattle.ira_audit.specs.declared.findings.Findings.{Findings};

use crate::decided_cases::DecidedCases;
use ira_cert::Profiles;
use ira_cert_text::{CertDraft, Section};
use ira_elim::{Decided, StepCount, decide_into};
use ira_event::{OutOfMemory, RingSize};
use ira_order::HappenedBefore;
use ira_pred::Case;
use std::alloc::Allocator;

/// What is found for the first cases of a question, while they are decided.
#[derive(Drop)]
pub(crate) struct CasesDraft<A: Allocator> {
    nodes: RingSize,
    cases: Vec<Decided<StepCount, A>, A>,
    /// Whether each of them is absent.
    are_absent: bool,
    /// The certificate of their sections, where it is asked for and as long as each of them is absent.
    certificate: Option<CertDraft<A>>,
}

impl<A: Allocator + Clone> CasesDraft<A> {
    /// Before the first case.
    pub(crate) fn new(
        alloc: A,
        nodes: RingSize,
        certify: bool,
    ) -> Result<CasesDraft<A>, OutOfMemory>
        ensures { IfOk result (λ draft. AreDrafted {A = A} nodes certify [] draft) }
    {
        let certificate = if certify {
            Some(CertDraft::new(alloc.clone()?, nodes)?)
        } else {
            None
        };
        Ok(CasesDraft {
            nodes,
            cases: Vec::new(alloc),
            are_absent: true,
            certificate,
        })
    }

    /// Decides the case that comes next, and keeps what is found.
    pub(crate) fn decide_next<C: HappenedBefore>(
        &mut self,
        alloc: A,
        profiles: &Profiles<'_, '_, A>,
        ordered: &C,
        case: &Case<A>,
    ) -> Result<(), OutOfMemory>
        requires order { (C.logs_of ordered.now) ≡ profiles.now }
        requires places { HasPlacesOf profiles.now case.now }
        ensures { (nodes : ℕ) (certify : Bool) (found : List (Found A)) → AreDrafted nodes certify found self.old
            → IfOk result (λ _. (next : Found A) × IsFound profiles.now case.now next
            × AreDrafted nodes certify (found ++ next ∷ []) self.new) }
    {
        let decided = self.decide(alloc, profiles, ordered, case)?;
        self.cases.push(decided)?;
        Ok(())
    }

    /// Decides a case. Its section is added to the certificate, where there is one, and else its steps are but counted.
    fn decide<C: HappenedBefore>(
        &mut self,
        alloc: A,
        profiles: &Profiles<'_, '_, A>,
        ordered: &C,
        case: &Case<A>,
    ) -> Result<Decided<StepCount, A>, OutOfMemory>
        requires order { (C.logs_of ordered.now) ≡ profiles.now }
        requires places { HasPlacesOf profiles.now case.now }
        ensures nodes { self.new.nodes ≡ self.old.nodes }
        ensures cases { self.new.cases ≡ self.old.cases }
        ensures decided { (nodes : ℕ) (certify : Bool) (found : List (Found A))
            → IsCertifying nodes certify found self.old.are_absent self.old.certificate
            → IfOk result (λ decided. IsAdded profiles.now case.now nodes certify found decided self.new.are_absent
            self.new.certificate) }
    {
        match self.certificate.take() {
            Some(certificate) => self.decide_with(certificate, alloc, profiles, ordered, case),
            None => self.decide_without(alloc, profiles, ordered, case),
        }
    }

    /// The same, where the section is added to this certificate, which was taken out.
    fn decide_with<C: HappenedBefore>(
        &mut self,
        mut certificate: CertDraft<A>,
        alloc: A,
        profiles: &Profiles<'_, '_, A>,
        ordered: &C,
        case: &Case<A>,
    ) -> Result<Decided<StepCount, A>, OutOfMemory>
        requires order { (C.logs_of ordered.now) ≡ profiles.now }
        requires places { HasPlacesOf profiles.now case.now }
        ensures nodes { self.new.nodes ≡ self.old.nodes }
        ensures cases { self.new.cases ≡ self.old.cases }
        ensures decided { (nodes : ℕ) (certify : Bool) (found : List (Found A))
            → IsCertifying nodes certify found self.old.are_absent (Some certificate)
            → IfOk result (λ decided. IsAdded profiles.now case.now nodes certify found decided self.new.are_absent
            self.new.certificate) }
    {
        let steps = Vec::new(alloc.clone()?);
        match decide_into(alloc, profiles, ordered, case, steps)? {
            Decided::Absent { steps, spent } => {
                let section = Section { steps, spent };
                certificate.add(&section)?;
                self.certificate = Some(certificate);
                let steps = StepCount::of(section.steps.len() as u64);
                Ok(Decided::Absent { steps, spent })
            }
            Decided::Present(cut) => {
                self.are_absent = false;
                Ok(Decided::Present(cut))
            }
        }
    }

    /// The same, where the steps are but counted.
    fn decide_without<C: HappenedBefore>(
        &mut self,
        alloc: A,
        profiles: &Profiles<'_, '_, A>,
        ordered: &C,
        case: &Case<A>,
    ) -> Result<Decided<StepCount, A>, OutOfMemory>
        requires order { (C.logs_of ordered.now) ≡ profiles.now }
        requires places { HasPlacesOf profiles.now case.now }
        ensures nodes { self.new.nodes ≡ self.old.nodes }
        ensures cases { self.new.cases ≡ self.old.cases }
        ensures decided { (nodes : ℕ) (certify : Bool) (found : List (Found A)) (certificate : Option (CertDraft A))
            → certificate ≡ None → IsCertifying nodes certify found self.old.are_absent certificate
            → IfOk result (λ decided. IsAdded profiles.now case.now nodes certify found decided self.new.are_absent
            self.new.certificate) }
    {
        match decide_into(alloc, profiles, ordered, case, StepCount::of(0))? {
            Decided::Absent { steps, spent } => Ok(Decided::Absent { steps, spent }),
            Decided::Present(cut) => {
                self.are_absent = false;
                Ok(Decided::Present(cut))
            }
        }
    }

    /// What is kept of all cases.
    pub(crate) fn finish(self) -> Result<DecidedCases<A>, OutOfMemory>
        ensures { (certify : Bool) (nodes : ℕ) (found : List (Found A)) (findings : Findings A)
            → AreDrafted nodes certify found self → AreOfCases nodes found findings
            → IfOk result (AreDecided certify findings) }
    {
        let CasesDraft {
            nodes,
            cases,
            are_absent,
            certificate,
        } = self;
        let Some(draft) = certificate else {
            return Ok(DecidedCases {
                nodes,
                cases,
                are_absent,
                certificate: None,
            });
        };
        Ok(DecidedCases {
            nodes,
            cases,
            are_absent,
            certificate: draft.finish()?,
        })
    }
}
