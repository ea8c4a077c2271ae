ghost use Rattle.std.specs.Prelude.{◌≡◌, ◌++◌, codes, decimal};
ghost use Rattle.ira_event.specs.Sink.{Wrote};
ghost use Rattle.ira_view.specs.CutFaultLine.{cut_fault_text, held_text, lacking_text};

use ira_event::{Line, Sink, WriteFault, write_bytes};
use ira_order::EventAt;
use ira_view_moment::CutFault;

/// The line of a receipt that is in the numbers, up to its sending.
fn held_line(receipt: EventAt) -> Line
    ensures { result ≡ held_text receipt }
{
    let mut line = Line::new();
    line.add(b"ira: --at is not consistent: event ");
    line.add_number(receipt.position);
    line.add(b" of node ");
    line.add_number(u32::from(receipt.place));
    line.add(b" is in it, and ");
    line
}

/// The rest of it, from its sending on.
fn lacking_line(sending: EventAt) -> Line
    ensures { result ≡ lacking_text sending }
{
    let mut line = Line::new();
    line.add(b"event ");
    line.add_number(sending.position);
    line.add(b" of node ");
    line.add_number(u32::from(sending.place));
    line.add(b", the sending that it receives, is not\n");
    line
}

#[tactic(auto, using(ira_event::proofs::Writing::writes))]
fn write_lines<V: Sink>(first: &Line, rest: &Line, err: &mut V) -> Result<(), WriteFault>
    ensures { Wrote result (first.now ++ rest.now) (V.state err.old) (V.state err.new) }
{
    first.write(err)?;
    rest.write(err)
}

/// Writes why the numbers of `--at` aren't a moment.
pub fn write_cut_fault<V: Sink>(fault: CutFault, err: &mut V) -> Result<(), WriteFault>
    ensures { Wrote result (cut_fault_text fault) (V.state err.old) (V.state err.new) }
{
    match fault {
        CutFault::NoCut => write_bytes(
            b"ira: --at is no cut: one number for each node, at most as many as its events\n",
            err,
        ),
        CutFault::LacksSending { receipt, sending } => {
            write_lines(&held_line(receipt), &lacking_line(sending), err)
        }
    }
}
