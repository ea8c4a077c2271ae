ghost use Rattle.std.specs.Prelude.{◌≡◌};
ghost use Rattle.ira_view.specs.RunFaultLine.{run_fault_text};

use ira_event::Line;
use ira_ring_setup::RunFault;

/// That a run was refused, or came to nothing, and why.
pub fn refused_run(fault: RunFault) -> Line
    ensures { result ≡ run_fault_text fault }
{
    let mut line = Line::new();
    line.add(b"ira: run refused ");
    line.add_number(u32::from(fault.number()));
    line.add(b"\n");
    line
}
