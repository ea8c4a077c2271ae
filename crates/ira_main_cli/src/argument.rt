ghost use Rattle.std.specs.Prelude.{◌≡◌};
ghost use Rattle.clap.specs.Words.{rule_of};
ghost use Rattle.ira_main_cli.specs.Argument.{rule_of_argument};

use clap::builder::ValueParser;
use clap::{Arg, ArgAction};
use std::alloc::Global;

/// An option or a name of a command: its name, what is given of it, whether it may be left out, and its help.
#[derive(Clone, Copy)]
pub struct Argument(
    pub &'static str,
    pub ArgumentForm,
    pub Need,
    pub &'static str,
);

/// What words give an option or a name.
#[derive(Clone, Copy)]
pub enum ArgumentForm {
    /// The option alone.
    Flag,
    /// The option and a value that this parser takes. Help calls it so.
    Value(&'static str, ValueParser<'static>),
    /// A word that this parser takes, with no option before it.
    Word(ValueParser<'static>),
    /// Names of files, one at least, with no option before them.
    Files,
}

/// Whether an option or a name may be left out.
#[derive(Clone, Copy)]
pub enum Need {
    Optional,
    Required,
    /// It may, and is this then.
    Default(&'static str),
}

impl Argument {
    /// The argument as `clap` has it.
    pub fn arg<'a>(&self, alloc: Global) -> Arg<'a>
        ensures { rule_of result ≡ rule_of_argument self.now }
    {
        let Argument(name, form, need, help) = *self;
        let arg = Arg::new(alloc, name).help(help);
        let arg = match form {
            ArgumentForm::Flag => arg.long(name).action(ArgAction::SetTrue),
            ArgumentForm::Value(value, parser) => arg
                .long(name)
                .value_name(value)
                .value_parser(parser),
            ArgumentForm::Word(parser) => arg.value_parser(parser),
            ArgumentForm::Files => arg.action(ArgAction::Append).num_args(1..),
        };
        match need {
            Need::Optional => arg,
            Need::Required => arg.required(true),
            Need::Default(text) => arg.default_value(text),
        }
    }
}
