ghost use Rattle.std.specs.Prelude.{◌≡◌, []};
ghost use Rattle.ira_cert_text.specs.Certificate as certificate;
ghost use Rattle.ira_cert_text.specs.CertText.{cert_text};
ghost use Rattle.ira_main_files.specs.Shelf.{MakesFile, writing_by};
ghost use Rattle.ira_main.specs.CertFile.{KeepsCertificate};
ghost use Rattle.ira_main.specs.Outcome.{Outcome, ReportsOutcome, outcome_number};

use crate::program_fault::{ProgramFault, report_outcome};
use ira_cert_text::{Certificate, write_cert};
use ira_commands::CommandFault;
use ira_event::Sink;
use ira_main_files::{Shelf, ShelfFault};
use ira_view::Status;
use std::alloc::Allocator;

// Writes the text of the certificate to a new file of this name.
fn write_new<A: Allocator, F: Shelf>(
    certificate: &Certificate<A>,
    name: &str,
    shelf: &mut F,
) -> Result<(), ShelfFault>
    ensures { MakesFile (writing_by F.creates F.closes F.keeps F.Out.state) name.now
        (cert_text certificate.now) shelf.old shelf.new result }
{
    let mut file = shelf.create(name)?;
    write_cert(certificate, &mut file)?;
    let file = shelf.close(file)?;
    shelf.keep(file)
}

/// What comes of keeping the certificate in a new file of this name.
fn keep<'a, A: Allocator, F: Shelf>(
    certificate: &Certificate<A>,
    name: &'a str,
    shelf: &mut F,
) -> Result<Status, ProgramFault<'a, A>>
    ensures { KeepsCertificate (writing_by F.creates F.closes F.keeps F.Out.state) certificate.now name.entry
        shelf.old shelf.new result }
{
    if !certificate.readable() {
        return Err(ProgramFault::Command(CommandFault::CertificatePastLimits));
    }
    match write_new(certificate, name, shelf) {
        Ok(()) => Ok(Status::Yes),
        Err(fault) => Err(ProgramFault::cannot_write(name, fault)),
    }
}

/// Keeps the certificate in a new file of this name, and gives the status: 0 where its whole text was written; 2
/// where it isn't `readable`, and then no file is made, or where the file can't be made or written; 3 where
/// memory ran out. On a status other than 0 a line on `err` says why.
pub fn keep_cert<A: Allocator, F: Shelf, V: Sink>(
    certificate: &Certificate<A>,
    name: &str,
    shelf: &mut F,
    err: &mut V,
) -> u8
    ensures { (outcome : Outcome A)
        × KeepsCertificate (writing_by F.creates F.closes F.keeps F.Out.state) certificate.now name.entry
        shelf.old shelf.new outcome
        × (result ≡ outcome_number outcome) × ReportsOutcome outcome [] (V.state err.old) (V.state err.new) }
{
    let outcome = keep(certificate, name, shelf);
    report_outcome(outcome, b"", err)
}
