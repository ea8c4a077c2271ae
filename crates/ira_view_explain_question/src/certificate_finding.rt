ghost use Rattle.std.specs.Prelude.{◌≢◌};
ghost use Rattle.ira_cert_text.specs.declared.cert_fault.CertFault.{CertFault};
ghost use Rattle.ira_view_explain_question.specs.CertificateFinding.{IsCertificateStop};

use crate::asked_finding::AskedFinding;
use ira_cert_text::CertFault;
use ira_view_page::{Beside, NamedText, TextStop};

impl<'a> AskedFinding<'a> {
    /// Of a text with this fault, which is no certificate's.
    pub(crate) fn of_certificate(file: &NamedText<'a>, fault: CertFault) -> AskedFinding<'a>
        requires { fault ≢ CertFault.OutOfMemory }
        ensures { IsCertificateStop file.now.text.now fault result.stop }
    {
        match fault {
            CertFault::TooLong => return AskedFinding::new(TextStop::TooLong),
            CertFault::Head => AskedFinding::of_head(file, b"ircert 1", Beside::due("`ircert 1`")),
            CertFault::Line(line) => {
                let words = "outside a section `section` or `end` is due, inside one";
                let finding = AskedFinding::whole_line(file, line as usize, Beside::note(words));
                AskedFinding {
                    is_section_line: true,
                    ..finding.with_slip(file.line(line as usize))
                }
            }
            CertFault::Range(line) => {
                let words = "NODE and OTHER are below N, POS and OTHERPOS at most 100,000";
                AskedFinding::whole_line(file, line as usize, Beside::note(words))
            }
            CertFault::TooMany => {
                let words = "a certificate has at most 32,385 sections, of 1,000,000 steps each";
                AskedFinding::whole_line(file, 1, Beside::note(words))
            }
            CertFault::Cut => AskedFinding::of_cut(file),
            CertFault::Trailing => AskedFinding::of_trailing(file),
            CertFault::OutOfMemory => unreachable!(),
        }
    }
}
