ghost use Rattle.std.specs.Prelude.{ℕ, List, MatchOption};
ghost use Rattle.ira_event.specs.Scan.{Gives};
ghost use Rattle.ira_cert_text.specs.CertScan.{head_at};
ghost use Rattle.ira_cert_text.specs.CertTextFault.{BeginsWithCertHead};

use ira_event::{RingSize, scan_number, skip_word};

/// The head of a certificate's text: the ring size that it names, and what follows it.
#[derive(Clone, Copy)]
pub(crate) struct CertHead<'a> {
    pub nodes: RingSize,
    pub rest: &'a [u8],
}

/// The head that the text begins with.
pub(crate) fn scan_head(text: &[u8]) -> Option<CertHead<'_>>
    ensures { MatchOption result ((nodes : ℕ) (rest : List ℕ) → ¬ (BeginsWithCertHead text.now nodes rest))
        (λ head. BeginsWithCertHead text.now head.nodes head.rest.now) }
{
    let (nodes, rest) = scan_head_lines(text)?;
    let nodes = RingSize::of_number(nodes)?;
    Some(CertHead { nodes, rest })
}

/// The head's number as it is spelled, in range or not, and what follows the head.
fn scan_head_lines(text: &[u8]) -> Option<(u32, &[u8])>
    ensures { Gives (λ found. (found.0, found.1.now)) result (head_at text.now) }
{
    let rest = skip_word(text, b"ircert 1\n")?;
    let rest = skip_word(rest, b"nodes ")?;
    let (nodes, rest) = scan_number(rest)?;
    let rest = skip_word(rest, b"\n")?;
    Some((nodes, rest))
}
