ghost use Rattle.ira_main.specs.Outcome.{PrintsLine};
ghost use Rattle.ira_main.specs.Version.{version_line};
ghost use Rattle.ira_view.specs.declared.status.Status.TheVariants.{Yes};

use crate::delivery::print_text;
use crate::program_fault::ProgramFault;
use ira_event::Sink;
use ira_view::Status;
use std::alloc::Allocator;

/// The program's version, and the logic that it was proved in, as `rt version` names that.
const VERSION: &[u8] = b"ira 0.4.2 (proved by rattle, logic dac8208d650f15bf)\n";

/// Prints which version this is.
pub(crate) fn print_version<'a, A: Allocator, W: Sink>(
    out: &mut W,
) -> Result<Status, ProgramFault<'a, A>>
    ensures { PrintsLine version_line Yes (W.state out.old) (W.state out.new) result }
{
    print_text(VERSION, Status::Yes, out)
}
