//! What was given to a command, by the name of the file or the option.
ghost use Rattle.std.specs.Prelude.{◌≡◌, option_map};
ghost use Rattle.clap.specs.Words.{first_of, found_of, rows_of};
ghost use Rattle.command_line.specs.Grammar.{either_of, flag_of, forms_by, forms_of, number_of};

use crate::command::Forms;
use clap::ArgMatches;

/// The text that was given under this name.
pub(crate) fn text_given<'a>(given: &ArgMatches<'a>, name: &str) -> Option<&'a str>
    ensures { option_map (λ path. path.now) result ≡ first_of name.now (rows_of (found_of given.now)) }
{
    given.get_str(name)
}

/// The text that was given under the first of these names, or else under the second.
pub(crate) fn either_given<'a>(given: &ArgMatches<'a>, first: &str, second: &str) -> Option<&'a str>
    ensures { option_map (λ text. text.now) result ≡ either_of first.now second.now (rows_of (found_of given.now)) }
{
    match text_given(given, first) {
        Some(text) => Some(text),
        None => text_given(given, second),
    }
}

/// The number that was given as the option of this name.
pub(crate) fn number_given(given: &ArgMatches<'_>, name: &str) -> Option<u32>
    ensures { result ≡ number_of name.now (rows_of (found_of given.now)) }
{
    given.get_one::<u32>(name)
}

/// Whether this option was given.
pub(crate) fn flag_given(given: &ArgMatches<'_>, name: &str) -> bool
    ensures { result ≡ flag_of name.now (rows_of (found_of given.now)) }
{
    match text_given(given, name) {
        Some(text) => text == "true",
        None => false,
    }
}

/// Which forms a module may have, by their word.
fn forms_by(word: &str) -> Option<Forms>
    ensures { result ≡ forms_by word.now }
{
    match word {
        "core" => Some(Forms::Core),
        "wide" => Some(Forms::Wide),
        _ => None,
    }
}

/// Which forms a module may have, by the option `forms`: those of `Core` for a command that has no such option.
pub(crate) fn forms_given(given: &ArgMatches<'_>) -> Option<Forms>
    ensures { result ≡ forms_of (rows_of (found_of given.now)) }
{
    match text_given(given, "forms") {
        Some(word) => forms_by(word),
        None => Some(Forms::Core),
    }
}
