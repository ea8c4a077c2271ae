ghost use Rattle.std.specs.Prelude.{◌≡◌, IfOk};
ghost use Rattle.clap.specs.Words.{app_of};
ghost use Rattle.ira_main_cli.specs.CommandEntry.{app_of_entry};

use crate::argument::Argument;
use clap::Command;
use std::alloc::{AllocError, Global};

/// A command of the program, with its options and names.
#[derive(Clone, Copy)]
pub struct CommandEntry {
    pub name: &'static str,
    pub about: &'static str,
    pub arguments: &'static [Argument],
}

impl CommandEntry {
    /// The command as `clap` has it.
    pub fn command<'a>(&self, alloc: Global) -> Result<Command<'a>, AllocError>
        ensures { IfOk result (λ c. app_of c ≡ app_of_entry self.now) }
    {
        let mut command = Command::new(alloc, self.name).about(self.about);
        for argument in self.arguments {
            command = command.arg(argument.arg(alloc))?;
        }
        Ok(command)
    }
}
