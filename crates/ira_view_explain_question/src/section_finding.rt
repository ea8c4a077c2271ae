ghost use Rattle.std.specs.Prelude.{◌≡◌, ◌≤◌, ◌++◌, IfOk, OnOk, String, length, string_bytes};
ghost use Rattle.ira_audit.specs.CheckAnswer.{IsFirstUnsound};
ghost use Rattle.ira_view_page.specs.Page.{Added};
ghost use Rattle.ira_view_explain_question.specs.SectionFinding.{IsSectionFinding, IsSectionTold, front_told};
ghost use Rattle.ira_view_explain_question.specs.SectionFinding.{line_told, section_line, section_text, stop_text};

use crate::asked_lines::HEAD_LINES;
use crate::explained_case::ExplainedCase;
use crate::front_left::print_left;
use ira_cert::{CertStep, Section, SectionFault};
use ira_event::OutOfMemory;
use ira_view_page::{Emphasis, Evidence, Front, Page};
use std::alloc::Allocator;

/// What a line of a section says that isn't so.
#[derive(Clone, Copy)]
pub(crate) enum SectionStop {
    /// A step.
    Step(CertStep),
    /// That this node is spent.
    Spent(u8),
}

/// Why the section of a certificate for a case isn't sound.
#[derive(Clone, Copy)]
pub(crate) struct SectionFinding {
    /// The line in the certificate.
    line: usize,
    stop: SectionStop,
    /// What the steps before it left of the node of which it rules a state out, or says that it is spent.
    own: Option<Front>,
    /// What they left of the other node of a step.
    other: Option<Front>,
}

/// The line of a certificate after so many steps of its section of a number.
fn section_line<A: Allocator>(sections: &[Section<A>], number: usize, steps: usize) -> usize
    requires { number ≤ length sections.now }
    ensures { result ≡ section_line sections.now number steps }
{
    let mut line = HEAD_LINES + 2;
    for section in &sections[..number] {
        line = line.saturating_add(section.steps.len()).saturating_add(2);
    }
    line.saturating_add(steps)
}

impl SectionStop {
    /// Adds it as the line of a certificate says it.
    fn print<P: Allocator>(self, page: &mut Page<P>)
        ensures { Added page.old (stop_text self) page.new }
    {
        match self {
            SectionStop::Step(step) => {
                page.numbered("drop ", step.node as u32);
                page.numbered(" ", step.pos);
                page.numbered(" by ", step.other as u32);
                page.numbered(" ", step.other_pos);
            }
            SectionStop::Spent(node) => page.numbered("spent ", node as u32),
        }
    }
}

/// Adds what is left of a node as evidence, where the node is asked.
fn push_left<A: Allocator>(
    told: &mut Vec<Evidence<A>, A>,
    front: Option<Front>,
) -> Result<(), OutOfMemory>
    ensures { OnOk result (told.new.items ≡ told.old.items ++ front_told front) }
{
    if let Some(front) = front {
        told.push(Evidence::Front(front))?;
    }
    Ok(())
}

impl SectionFinding {
    /// Of the section of a case, the first of these that isn't sound.
    pub(crate) fn find<A: Allocator + Clone>(
        case: &ExplainedCase<'_, A>,
        sections: &[Section<A>],
        fault: SectionFault,
    ) -> Result<SectionFinding, OutOfMemory>
        requires { IsFirstUnsound case.now.ring.now.asked.now.logs case.now.ring.now.asked.now.question.cases
            sections.now case.now.number fault }
        ensures { IfOk result (IsSectionFinding case.now.ring.now.asked.now.logs case.now.case.now sections.now
            case.now.number fault) }
    {
        let section = &sections[case.number];
        let steps = &section.steps;
        match fault {
            SectionFault::Step(number, _) => {
                let (step, before) = (steps[number], &steps[..number]);
                Ok(SectionFinding {
                    line: section_line(sections, case.number, number),
                    stop: SectionStop::Step(step),
                    own: case.left_of(before, step.node)?,
                    other: if step.node == step.other {
                        None
                    } else {
                        case.left_of(before, step.other)?
                    },
                })
            }
            SectionFault::NotSpent(node) => {
                Ok(SectionFinding {
                    line: section_line(sections, case.number, steps.len()),
                    stop: SectionStop::Spent(node),
                    own: case.left_of(steps, node)?,
                    other: None,
                })
            }
        }
    }

    /// What it rests on, in a certificate's file of this name.
    pub(crate) fn evidence<A: Allocator + Clone>(
        &self,
        alloc: &A,
        file: &str,
    ) -> Result<Vec<Evidence<A>, A>, OutOfMemory>
        ensures { IfOk result (λ told. IsSectionTold file.now self.now told.items) }
    {
        let mut told = Vec::new(alloc.clone()?);
        told.push(self.line_told(alloc, file)?)?;
        push_left(&mut told, self.own)?;
        push_left(&mut told, self.other)?;
        Ok(told)
    }

    /// The line of the certificate.
    fn line_told<A: Allocator + Clone>(
        &self,
        alloc: &A,
        file: &str,
    ) -> Result<Evidence<A>, OutOfMemory>
        ensures { IfOk result (λ told. (name : String A) × (string_bytes name ≡ file.now)
            × (told ≡ line_told name self.now.line self.now.stop)) }
    {
        let (file, line) = (String::from_str(alloc.clone()?, file)?, self.line);
        Ok(match self.stop {
            SectionStop::Step(step) => Evidence::Step { file, line, step },
            SectionStop::Spent(node) => Evidence::Spent { file, line, node },
        })
    }

    /// Adds it to a page, with the name of the certificate's file.
    pub(crate) fn print<P: Allocator>(&self, file: &str, page: &mut Page<P>)
        ensures { Added page.old (section_text file.now self.now) page.new }
    {
        page.begin(Emphasis::Named);
        page.place(file, self.line);
        page.words(": ");
        self.stop.print(page);
        page.end();
        print_left(self.own, page);
        print_left(self.other, page);
    }
}
