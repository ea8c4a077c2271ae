ghost use Rattle.std.specs.Prelude.{◌≡◌, ◌≤◌, ◌+◌, ◌↔◌, ℕ, None, IsTrue, length, codes};
ghost use Rattle.ira_event.specs.Scan.{after_word};
ghost use Rattle.ira_event.specs.Limits.{MAX_TEXT};
ghost use Rattle.ira_cert_text.specs.CertScan.{section_line_at};
ghost use Rattle.ira_cert_text.specs.CertTextFault.{BeginsAsStep, RestOutsideFault, RestInsideFault};
ghost use Rattle.ira_cert_text.specs.CertLines.{ReadsOutside, ReadsInside};

use crate::cert_fault::CertFault;
use crate::cert_line::{SpelledLine, place_in_range, scan_section_line};
use crate::cert_step::CertStep;
use crate::limits::{MAX_SECTIONS, MAX_STEPS};
use ira_event::{line_end, skip_word};
use std::marker::Model;

/// What stands after the head of a certificate's text, read line by line.
#[derive(Drop)]
pub(crate) struct CertLines<'a> {
    rest: &'a [u8],
    number: u32,
}

impl<'a> Model for CertLines<'a> {
    ghost use Rattle.std.specs.Prelude.{◌≤◌, ◌+◌, length};
    ghost use Rattle.ira_event.specs.Limits.{MAX_TEXT};
    ghost use Rattle.ira_cert_text.specs.CertLines.{LinesLeft};

    ghost Value = { LinesLeft };

    ghost view = { λ r. record { rest = r.rest.now; number = r.number } };

    ghost invariant = { λ r. r.number + length r.rest.now ≤ MAX_TEXT };
}

/// A line of a section after its first one.
#[derive(Clone, Copy)]
pub(crate) enum SectionLine {
    Step(CertStep),
    Spent(u8),
}

impl<'a> CertLines<'a> {
    /// The lines of what stands after a head.
    pub fn new(text: &'a [u8]) -> CertLines<'a>
        requires { 3 + length text.now ≤ MAX_TEXT }
        ensures { result ≡ record { rest = text.now; number = 3 } }
    {
        CertLines {
            rest: text,
            number: 3,
        }
    }

    fn go_on(&mut self, after: &'a [u8])
        requires { length after.now + 1 ≤ length self.old.rest }
        ensures { self.new ≡ record { rest = after.now; number = self.old.number + 1 } }
    {
        self.rest = after;
        self.number += 1;
    }

    /// Whether the first line of a section follows after so many sections: it is read then. Else the
    /// end line follows and ends the text, or something with a fault.
    pub fn next_section(&mut self, sections: usize) -> Result<bool, CertFault>
        ensures { ReadsOutside sections self.old self.new result }
    {
        if let Some(after) = skip_word(self.rest, b"section\n") {
            if sections == MAX_SECTIONS {
                return Err(CertFault::TooMany);
            }
            self.go_on(after);
            return Ok(true);
        }
        let Some(after) = skip_word(self.rest, b"end\n") else {
            return Err(outside_fault(self.rest, self.number));
        };
        if !after.is_empty() {
            return Err(CertFault::Trailing);
        }
        Ok(false)
    }

    /// The next line of a section after so many of its steps, or the fault of what follows.
    #[inline(always)]
    pub fn next_in_section(&mut self, nodes: u8, steps: usize) -> Result<SectionLine, CertFault>
        ensures { ReadsInside nodes steps self.old self.new result }
    {
        let Some((line, after)) = scan_section_line(self.rest) else {
            return Err(inside_fault(self.rest, self.number, steps));
        };
        match line {
            SpelledLine::Step(spelled) => {
                if steps == MAX_STEPS {
                    return Err(CertFault::TooMany);
                }
                let Some(step) = spelled.in_range(nodes) else {
                    return Err(CertFault::Range(self.number));
                };
                self.go_on(after);
                Ok(SectionLine::Step(step))
            }
            SpelledLine::Spent(place) => {
                let Some(spent) = place_in_range(place, nodes) else {
                    return Err(CertFault::Range(self.number));
                };
                self.go_on(after);
                Ok(SectionLine::Spent(spent))
            }
        }
    }
}

/// The fault where line `number` begins outside a section, and is neither of the two allowed there.
#[cold]
fn outside_fault(text: &[u8], number: u32) -> CertFault
    requires section { after_word (codes "section\n") text.now ≡ None }
    requires end { after_word (codes "end\n") text.now ≡ None }
    ensures { (sections : ℕ) → RestOutsideFault number sections text.now result }
{
    match line_end(text) {
        Some(_) => CertFault::Line(number),
        None => CertFault::Cut,
    }
}

/// The fault where line `number` begins in a section, after so many steps, and is neither a step nor
/// the spent node.
#[cold]
fn inside_fault(text: &[u8], number: u32, steps: usize) -> CertFault
    requires { section_line_at text.now ≡ None }
    ensures { (nodes : ℕ) → RestInsideFault nodes number steps text.now result }
{
    let Some(end) = line_end(text) else {
        return CertFault::Cut;
    };
    let (line, _) = text.split_at(end);
    if steps == MAX_STEPS && begins_as_step(line) {
        return CertFault::TooMany;
    }
    CertFault::Line(number)
}

/// Whether the line begins as a step does.
fn begins_as_step(line: &[u8]) -> bool
    ensures { IsTrue result ↔ BeginsAsStep line.now }
{
    line.starts_with(b"drop ")
}
