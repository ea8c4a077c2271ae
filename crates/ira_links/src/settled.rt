ghost use Rattle.std.specs.Prelude.{◌≡◌};

use std::marker::Model;

/// The numbers of a link that nobody uses any more.
#[derive(Clone, Copy, Debug, PartialEq, Eq)]
pub struct Settled {
    pub(crate) puts: u32,
    pub(crate) takes: u32,
}

impl Model for Settled {
    ghost use Rattle.ira_links.specs.Counts.{Counts};

    ghost Value = { Counts };

    ghost view = { λ s. record { puts = s.puts; takes = s.takes } };

    ghost inverse = { λ c. record { puts = c.puts; takes = c.takes } };
}

impl Settled {
    /// How many frames the link accepted.
    pub fn puts(&self) -> u32
        ensures { result ≡ self.now.puts }
    {
        self.puts
    }

    /// How many frames were taken from it.
    pub fn takes(&self) -> u32
        ensures { result ≡ self.now.takes }
    {
        self.takes
    }
}
