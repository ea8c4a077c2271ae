ghost use Rattle.std.specs.Prelude.{◌≡◌};
ghost use Rattle.ira_view.specs.DrawFaultLine.{too_many_text};

use ira_event::Line;

/// That so many events are too many for a picture.
pub fn too_many_events(events: u32) -> Line
    ensures { result ≡ too_many_text events }
{
    let mut line = Line::new();
    line.add(b"ira: ");
    line.add_number(events);
    line.add(b" events are too many for one picture, which holds 20000: give --from and --to\n");
    line
}
