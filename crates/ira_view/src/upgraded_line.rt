ghost use Rattle.std.specs.Prelude.{◌≡◌};
ghost use Rattle.ira_view.specs.UpgradedLine.{upgraded_text};

use ira_event::{Line, RingSize};

/// How many logs were upgraded: those of a ring of this size.
pub fn upgraded_logs(size: RingSize) -> Line
    ensures { result ≡ upgraded_text size }
{
    let mut line = Line::new();
    line.add(b"upgraded ");
    line.add_number(u32::from(size.get()));
    line.add(b" logs\n");
    line
}
