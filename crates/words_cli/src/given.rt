//! What a command was given.

ghost use Rattle.std.specs.Prelude.{◌≡◌, option_map, is_none};
ghost use Rattle.clap.specs.Words.{first_of, found_of, rows_of};

use clap::ArgMatches;

/// The value that the option has, or the word that stands by itself.
pub(crate) fn value_of<'a>(given: &ArgMatches<'a>, id: &str) -> Option<&'a str>
    ensures { option_map (λ text. text.now) result ≡ first_of id.now (rows_of (found_of given.now)) }
{
    given.get_str(id)
}

/// Whether the option isn't given.
pub(crate) fn lacks(given: &ArgMatches, id: &str) -> bool
    ensures { result ≡ is_none (first_of id.now (rows_of (found_of given.now))) }
{
    value_of(given, id).is_none()
}
