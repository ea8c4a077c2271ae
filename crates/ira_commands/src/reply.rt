ghost use Rattle.std.specs.Prelude.{◌≡◌, IfOk};
ghost use Rattle.ira_audit.specs.Report.{IsReportable};
ghost use Rattle.ira_commands.specs.Output.{printed_by};
ghost use Rattle.ira_commands.specs.Reply.{Reports, ReportsAs, made, printed, printing, refused, refused_after};
ghost use Rattle.ira_commands.specs.Reply.{with_files};

use crate::command_fault::CommandFault;
use crate::files::Files;
use crate::output::Output;
use ira_audit::{Answer, write_report};
use ira_event::{MemorySink, OutOfMemory};
use ira_view::{Form, Status, write_answer_as};
use std::alloc::Allocator;
use std::marker::Model;

/// What comes of a command.
#[derive(Drop)]
pub struct Reply<A: Allocator> {
    status: Status,
    /// What is printed on standard output.
    out: Output<A>,
    /// Why it is refused, which is printed on standard error.
    fault: Option<CommandFault>,
    files: Files<A>,
}

impl<A: Allocator> Model for Reply<A> {
    ghost use Rattle.std.specs.Coded.{codes};
    ghost use Rattle.ira_pred.specs.FormulaCode.{formula_code};
    ghost use Rattle.ira_commands.specs.Output.{printed_by};
    ghost use Rattle.ira_commands.specs.Reply.{Reply, made};

    ghost Value = { Reply };

    ghost coded = { Prim.hlevel (codes, formula_code) };

    ghost view = { λ r. record { status = r.status; out = printed_by r.out; fault = r.fault; files = made r.files } };
}

impl<A: Allocator + Clone> Reply<A> {
    /// The line of an answer.
    pub fn of_answer(alloc: A, answer: &Answer) -> Result<Reply<A>, OutOfMemory>
        requires { IsReportable answer.now }
        ensures { IfOk result (Reports answer.now) }
    {
        let mut line = MemorySink::new(alloc);
        let Ok(()) = write_report(answer, &mut line) else {
            return Err(OutOfMemory);
        };
        Ok(Reply::printed(Status::of_answer(answer), line))
    }

    /// An answer: its line, or JSON.
    pub fn of_answer_as(alloc: A, form: Form, answer: &Answer) -> Result<Reply<A>, OutOfMemory>
        requires { IsReportable answer.now }
        ensures { IfOk result (ReportsAs form answer.now) }
    {
        let mut text = MemorySink::new(alloc.clone()?);
        let Ok(()) = write_answer_as(alloc, form, answer, &mut text) else {
            return Err(OutOfMemory);
        };
        Ok(Reply::printed(Status::of_answer(answer), text))
    }

    /// What is printed on standard output, and nothing else.
    pub(crate) fn printing(status: Status, out: Output<A>) -> Reply<A>
        ensures { result ≡ printing status (printed_by out) }
    {
        Reply {
            status,
            out,
            fault: None,
            files: Files::Nothing,
        }
    }

    /// This text on standard output, and nothing else.
    pub(crate) fn printed(status: Status, text: MemorySink<A>) -> Reply<A>
        ensures { result ≡ printed status text.bytes }
    {
        Reply::printing(status, Output::Text(text))
    }

    /// What is printed on standard output before a refusal.
    pub(crate) fn refused_after(text: MemorySink<A>, fault: CommandFault) -> Reply<A>
        ensures { result ≡ refused_after text.bytes fault }
    {
        Reply {
            status: Status::Refused,
            out: Output::Text(text),
            fault: Some(fault),
            files: Files::Nothing,
        }
    }

    /// A refusal of what is asked for.
    pub fn refused(alloc: A, fault: CommandFault) -> Reply<A>
        ensures { result ≡ refused fault }
    {
        Reply::refused_after(MemorySink::new(alloc), fault)
    }

    /// The same with these files.
    pub(crate) fn with_files(self, files: Files<A>) -> Reply<A>
        ensures { result ≡ with_files self (made files) }
    {
        let Reply {
            status,
            out,
            fault,
            files: _,
        } = self;
        Reply {
            status,
            out,
            fault,
            files,
        }
    }

    pub fn status(&self) -> Status
        ensures { result ≡ self.now.status }
    {
        self.status
    }

    /// What is printed on standard output.
    pub fn out(&self) -> &Output<A>
        ensures { printed_by result.now ≡ self.now.out }
    {
        &self.out
    }

    /// Why it is refused, which is printed on standard error.
    pub fn fault(&self) -> Option<CommandFault>
        ensures { result ≡ self.now.fault }
    {
        self.fault
    }

    /// The files that are made.
    pub fn files(&self) -> &Files<A>
        ensures { made result.now ≡ self.now.files }
    {
        &self.files
    }
}
