//! Runs `clap` on the arguments.
ghost use Rattle.std.specs.Prelude.{◌≡◌, IfOk, map, option_map, string_bytes};
ghost use Rattle.clap.specs.Kinds.{FailsBy};
ghost use Rattle.clap.specs.Words.{fault_of, first_of, found_of, rows_of, subcommand_of, subcommand_rows_of};
ghost use Rattle.land_commands.specs.Words.Commands.{land_app};
ghost use Rattle.land_commands.specs.Words.Names.{IsOptionNumber};

use crate::words::choices::Choices;
use crate::words::commands::land;
use clap::{ArgMatches, Error};
use std::alloc::Global;

/// Parses the arguments with `clap`. The first is the name of the program. `choices`: the words for roles and
/// kinds.
pub fn matches<'a>(
    alloc: Global,
    choices: Choices<'a>,
    words: &'a [String],
) -> Result<ArgMatches<'a>, Error>
    ensures found { IfOk result (λ m. subcommand_rows_of m
        ≡ subcommand_of (land_app choices.entry) (map string_bytes words.entry.now)) }
    ensures kinds { FailsBy (fault_of (land_app choices.entry) (map string_bytes words.entry.now)) result }
{
    let land = land(alloc, choices)?;
    land.try_get_matches_from(words)
}

/// Returns the name and the options of the subcommand.
pub fn subcommand_found<'m, 'a>(found: &'m ArgMatches<'a>) -> Option<(&'a str, &'m ArgMatches<'a>)>
    ensures { option_map (λ p. (p.0.now, rows_of (found_of p.1.now))) result ≡ subcommand_rows_of found.now }
{
    found.subcommand()
}

/// Returns the value of an option.
pub fn text_of<'a>(found: &ArgMatches<'a>, option: &str) -> Option<&'a str>
    ensures { option_map (λ text. text.now) result ≡ first_of option.now (rows_of (found_of found.now)) }
{
    found.get_str(option)
}

/// Returns the value of an option as a number, if it is one from `least` to `most`.
pub fn number_of(found: &ArgMatches<'_>, option: &str, least: i64, most: i64) -> Option<i64>
    ensures { IsOptionNumber (rows_of (found_of found.now)) option.now least most result }
{
    let number = text_of(found, option)?.parse::<i64>().ok()?;
    if least <= number && number <= most {
        Some(number)
    } else {
        None
    }
}
