ghost use Rattle.std.specs.Prelude.{◌≡◌, ◌<◌, ◌≤◌, ℕ, List, Some, IfOk, MatchOption, length, slice_get};
ghost use Rattle.ira_event.specs.Log.{Log};
ghost use Rattle.ira_pred.specs.Case.{Conjunct};
ghost use Rattle.ira_pred.specs.Question.{IsQuestion};
ghost use Rattle.ira_cert_text.specs.CertText.{IsCertText};
ghost use Rattle.ira_cert_text.specs.Certificate as text;
ghost use Rattle.ira_cert.specs.Conjuncts.{HasPlacesOf};
ghost use Rattle.ira_elim.specs.Found.{IsFound};
ghost use Rattle.ira_par.specs.Sections as sections;
ghost use Rattle.ira_audit.specs.AskedQuestion.{AreFoundOf, IsFirstPresent};
ghost use Rattle.ira_audit.specs.CheckAnswer.{AreSound};
ghost use Rattle.ira_audit.specs.DecidedCases.{AreDecided};
ghost use Rattle.ira_audit.specs.GoodLogs.{AreGood};
ghost use Rattle.ira_audit.specs.Never.{NoCutMeetsAny};
ghost use Rattle.ira_audit.specs.Refusal.{IsCertificateRefusal, IsSectionsRefusal, MatchRefusal};
ghost use Rattle.ira_audit.specs.declared.findings.Findings.{Findings};

use crate::cases_draft::CasesDraft;
use crate::decided_cases::DecidedCases;
use crate::findings::Findings;
use crate::reason::Reason;
use crate::refusal::Refusal;
use ira_cert::Profiles;
use ira_cert_text::{Certificate, Section, read_cert};
use ira_elim::{Cut, Found, decide_profiled};
use ira_event::{Logs, OutOfMemory};
use ira_links::Gate;
use ira_order::{DirectDependencies, HappenedBefore};
use ira_par::{UnsoundSection, check_one_by_one, split_sections};
use ira_pred::{Case, Question};
use std::alloc::Allocator;
use std::marker::Model;
use std::sync::Wait;
use std::thread::Threads;
use std::time::Clock;

/// A question that is asked of the ring of good logs, and which of their events happened before which.
#[derive(Drop)]
pub struct AskedQuestion<'a, A: Allocator> {
    /// Where memory is taken from.
    pub(crate) alloc: A,
    pub(crate) question: Question<A>,
    pub(crate) dependencies: DirectDependencies<'a, A>,
}

impl<'a, A: Allocator> Model for AskedQuestion<'a, A> {
    ghost use Rattle.std.specs.Coded.{codes};
    ghost use Rattle.std.specs.Prelude.{◌≡◌, length};
    ghost use Rattle.ira_pred.specs.FormulaCode.{formula_code};
    ghost use Rattle.ira_audit.specs.AskedQuestion.{AskedQuestion};
    ghost use Rattle.ira_audit.specs.DecidedCases.{AreDecided};
    ghost use Rattle.ira_audit.specs.GoodLogs.{AreGood};

    ghost Value = { AskedQuestion };

    ghost coded = { Prim.hlevel (codes, formula_code) };

    ghost view = { λ a. record { logs = a.dependencies; question = a.question } };

    ghost invariant = { λ a. AreGood a.dependencies × (a.question.nodes ≡ length a.dependencies) };
}

impl<'a, A: Allocator + Clone> AskedQuestion<'a, A> {
    /// The logs of the ring.
    pub fn logs(&self) -> &Logs<A>
        ensures value { result.now ≡ self.now.logs }
        ensures good { AreGood self.now.logs }
    {
        self.dependencies.logs()
    }

    /// The question.
    pub fn question(&self) -> &Question<A>
        ensures value { result.now ≡ self.now.question }
        ensures ring { self.now.question.nodes ≡ length self.now.logs }
    {
        &self.question
    }

    /// The question, for which the rest is let go.
    pub fn into_question(self) -> Question<A>
        ensures { result ≡ self.entry.question }
    {
        let AskedQuestion { question, .. } = self;
        question
    }

    /// The cases of the question.
    pub fn cases(&self) -> &[Case<A>]
        ensures value { result.now ≡ self.now.question.cases }
        ensures places { (i : ℕ) (case : List Conjunct) → slice_get self.now.question.cases i ≡ Some case
            → HasPlacesOf self.now.logs case }
        ensures valid { IsQuestion self.now.question }
    {
        self.question.cases()
    }

    /// What is found for each case. The states of each log are computed once, however many cases there are, and so are,
    /// as far as `Profiles` has room, candidates that several of them ask for.
    pub fn decide(&self) -> Result<Findings<A>, OutOfMemory>
        ensures { IfOk result (AreFoundOf self.now) }
    {
        let cases = self.cases();
        let profiles = Profiles::new(self.alloc.clone()?, self.logs(), cases)?;
        let mut found = Vec::with_capacity(self.alloc.clone()?, cases.len())?;
        for case in cases {
            let alloc = self.alloc.clone()?;
            found.push(decide_profiled(alloc, &profiles, &self.dependencies, case)?)?;
        }
        Ok(Findings::Cases {
            nodes: self.logs().size(),
            found,
        })
    }

    /// What is found for the case of a number, counted from 0. No other case is looked at.
    pub fn decide_case(&self, number: usize) -> Result<Found<A>, OutOfMemory>
        requires { number < length self.now.question.cases }
        ensures { (case : List Conjunct) → slice_get self.now.question.cases number ≡ Some case
            → IfOk result (IsFound self.now.logs case) }
    {
        let cases = self.cases();
        let case = &cases[number];
        let profiles = Profiles::new(self.alloc.clone()?, self.logs(), &cases[..0])?;
        decide_profiled(self.alloc.clone()?, &profiles, &self.dependencies, case)
    }

    /// The number of the first case that a consistent cut meets, and the least cut that does, if there is such a case. The
    /// cases after it aren't looked at.
    pub fn first_present(&self) -> Result<Option<(usize, Cut<A>)>, OutOfMemory>
        ensures { IfOk result (λ present. MatchOption present
            (NoCutMeetsAny self.now.logs self.now.question.cases)
            (λ first. IsFirstPresent self.now.logs self.now.question.cases first.0 first.1)) }
    {
        let cases = self.cases();
        let profiles = Profiles::new(self.alloc.clone()?, self.logs(), cases)?;
        for (number, case) in cases.iter().enumerate() {
            let alloc = self.alloc.clone()?;
            let found = decide_profiled(alloc, &profiles, &self.dependencies, case)?;
            if let Found::Present(cut) = found {
                return Ok(Some((number, cut)));
            }
        }
        Ok(None)
    }

    /// What `decide` finds, with the steps of sections counted: no section is kept, but for the text of the certificate, if
    /// it is asked for and as long as each case is absent.
    pub fn decide_counted(&self, certify: bool) -> Result<DecidedCases<A>, OutOfMemory>
        ensures { IfOk result (λ decided. (findings : Findings A) × AreFoundOf self.now findings
            × AreDecided certify findings decided) }
    {
        let cases = self.cases();
        let profiles = Profiles::new(self.alloc.clone()?, self.logs(), cases)?;
        let mut draft = CasesDraft::new(self.alloc.clone()?, self.logs().size(), certify)?;
        for case in cases {
            draft.decide_next(self.alloc.clone()?, &profiles, &self.dependencies, case)?;
        }
        draft.finish()
    }

    /// The certificate of the text, if it is for this ring. How many sections it has isn't looked at.
    pub fn read_certificate(&self, text: &[u8]) -> Result<Certificate<A>, Refusal>
        ensures { MatchRefusal result
            (λ certificate. IsCertText text.now certificate × (certificate.nodes ≡ length self.now.logs))
            (IsCertificateRefusal text.now (length self.now.logs)) }
    {
        let certificate = read_cert(self.alloc.clone()?, text)?;
        if certificate.nodes.get() != self.logs().size().get() {
            return Err(Refusal::No(Reason::CertificateSize));
        }
        Ok(certificate)
    }

    /// Whether the certificate has a section for each case that is sound for it. The steps of each section are cut into
    /// `2^depth` parts, which are judged on up to as many threads, each after the gate, which it passes with its number from
    /// the left. It may wait for them.
    pub fn check<R, G>(
        &self,
        rt: &R,
        certificate: &Certificate<A>,
        depth: u8,
        gate: &G,
    ) -> Result<(), Refusal>
    where
        R: Threads + Wait + Clock + Sync,
        G: Gate + Sync,
        A: Send + Sync,
        requires { depth ≤ 4 }
        ensures { MatchRefusal result
            (λ _. AreSound self.now.logs self.now.question.cases certificate.now.sections)
            (IsSectionsRefusal self.now.logs self.now.question.cases certificate.now.sections) }
    {
        let cases = self.cases();
        let sections = self.sections_of(certificate)?;
        let profiles = Profiles::new(self.alloc.clone()?, self.logs(), cases)?;
        let unsound = split_sections(
            rt,
            self.alloc.clone()?,
            &profiles,
            &self.dependencies,
            cases,
            sections,
            depth,
            gate,
        )?;
        refuse_unsound(unsound)
    }

    /// What `check` answers. The sections are judged one by one: no thread is started, and nothing is waited for.
    pub fn check_alone(&self, certificate: &Certificate<A>) -> Result<(), Refusal>
        ensures { MatchRefusal result
            (λ _. AreSound self.now.logs self.now.question.cases certificate.now.sections)
            (IsSectionsRefusal self.now.logs self.now.question.cases certificate.now.sections) }
    {
        let cases = self.cases();
        let sections = self.sections_of(certificate)?;
        let profiles = Profiles::new(self.alloc.clone()?, self.logs(), cases)?;
        let unsound = check_one_by_one(
            self.alloc.clone()?,
            &profiles,
            &self.dependencies,
            cases,
            sections,
            || (),
        )?;
        refuse_unsound(unsound)
    }

    /// The sections of the certificate, if there are as many as cases.
    fn sections_of<'c>(&self, certificate: &'c Certificate<A>) -> Result<&'c [Section<A>], Refusal>
        ensures { MatchRefusal result
            (λ sections. (sections.now ≡ certificate.now.sections)
            × (length certificate.now.sections ≡ length self.now.question.cases))
            (IsSectionsRefusal self.now.logs self.now.question.cases certificate.now.sections) }
    {
        let (wanted, found) = (self.cases().len(), certificate.sections.len());
        if found != wanted {
            return Err(Refusal::No(Reason::Sections { wanted, found }));
        }
        Ok(&certificate.sections)
    }
}

/// The refusal for a section that isn't sound.
fn refuse_unsound(unsound: Option<UnsoundSection>) -> Result<(), Refusal>
    ensures { (logs : List Log) (cases : List (List Conjunct)) (each : List text.Section)
        → length each ≡ length cases → sections.IsFound logs cases each unsound
        → MatchRefusal result (λ _. AreSound logs cases each) (IsSectionsRefusal logs cases each) }
{
    match unsound {
        None => Ok(()),
        Some(unsound) => Err(Refusal::No(Reason::Section {
            case: unsound.section,
            fault: unsound.fault,
        })),
    }
}
