ghost use Rattle.std.specs.Prelude.{◌≡◌, ◌≤◌, IfErr, IfOk, map, option_map};
ghost use Rattle.clap.specs.Words.{all_of, first_of, found_of, rows_of};
ghost use Rattle.std.specs.Prelude.{Some};
ghost use Rattle.ira_main_cli.specs.Options.{HasNumber, HasNumberTo, IsLeftOut, ListsNumber, MayHaveNumber, is_set};

use crate::options_fault::OptionsFault;
use clap::ArgMatches;

/// The text of an option, if it has one.
pub fn text<'a>(matches: &ArgMatches<'a>, name: &str) -> Option<&'a str>
    ensures { first_of name.now (rows_of (found_of matches.now)) ≡ option_map (λ s. s.now) result }
{
    matches.get_str(name)
}

/// The text of an option that has one.
pub fn given_text<'a>(matches: &ArgMatches<'a>, name: &str) -> Result<&'a str, OptionsFault>
    ensures found { IfOk result (λ t. first_of name.now (rows_of (found_of matches.now)) ≡ Some t.now) }
    ensures refused { IfErr result (λ why. IsLeftOut name.now (rows_of (found_of matches.now))) }
{
    match text(matches, name) {
        Some(text) => Ok(text),
        None => Err(OptionsFault::Missing),
    }
}

/// The number of an option, if it has one.
pub fn number(matches: &ArgMatches, name: &str) -> Result<Option<u64>, OptionsFault>
    ensures read { IfOk result (MayHaveNumber (rows_of (found_of matches.now)) name.now) }
    ensures refused { IfErr result (λ why. ListsNumber name.now (rows_of (found_of matches.now)) → ⊥) }
{
    match text(matches, name) {
        None => Ok(None),
        Some(text) => match text.parse() {
            Ok(number) => Ok(Some(number)),
            Err(_) => Err(OptionsFault::NoNumber),
        },
    }
}

/// The number of an option that has one, which is at most this.
pub fn given_number(matches: &ArgMatches, name: &str, most: u64) -> Result<u64, OptionsFault>
    ensures read { IfOk result (HasNumber (rows_of (found_of matches.now)) name.now) }
    ensures few { IfOk result (λ n. n ≤ most) }
    ensures refused { IfErr result (λ why. HasNumberTo most (rows_of (found_of matches.now)) name.now → ⊥) }
{
    match number(matches, name)? {
        Some(number) if number <= most => Ok(number),
        Some(_) => Err(OptionsFault::NoNumber),
        None => Err(OptionsFault::Missing),
    }
}

/// Whether an option is given.
pub fn flag(matches: &ArgMatches, name: &str) -> bool
    ensures { result ≡ is_set name.now (rows_of (found_of matches.now)) }
{
    text(matches, name) == Some("true")
}

/// The names that are given, if there are any.
pub fn names<'m, 'a>(matches: &'m ArgMatches<'a>, name: &str) -> Option<&'m [&'a str]>
    ensures { all_of name.now (rows_of (found_of matches.now))
        ≡ option_map (λ ns. map (λ s. s.now) ns.now) result }
{
    matches.get_strs(name)
}
