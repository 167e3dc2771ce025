//! Reads the command that the arguments name.
ghost use Rattle.std.specs.Prelude.{map, pos, codes, option_map, string_bytes};
ghost use Rattle.clap.specs.Words.{found_of, rows_of, subcommand_rows_of};
ghost use Rattle.land_commands.specs.Words.Choices.{IsWordOf, kind_word, role_word};
ghost use Rattle.land_commands.specs.Words.Names.{IsCallerOption, IsChoiceOf, IsOptionalNumber, FindsCommand};
ghost use Rattle.land_commands.specs.Words.Names.{IsNumberOr, IsOptionNumber};
ghost use Rattle.land_commands.specs.Words.Names.{HasOptionsOf};
ghost use Rattle.land_commands.specs.Words.Names.{IsReading, IsFaultOfError};
ghost use Rattle.land_commands.specs.Words.PlainCommands.{order_of};
ghost use Rattle.land_core.specs.Numbers.{last_moment};

use crate::words::choices::all_choices;
use crate::words::clap_matches::{matches, number_of, subcommand_found, text_of};
use crate::words::command::Command;
use crate::words::options::{LAST_PARTY, LAST_PORT, MAX_AT_ONCE, MAX_CONNECTIONS};
use crate::words::words_fault::WordsFault;
use clap::error::ErrorKind;
use clap::{ArgMatches, Error};
use land_core::caller::Caller;
use land_core::kind::Kind;
use land_core::limits::LAST_MOMENT;
use land_core::role::Role;
use std::alloc::Global;

/// Reads the command that the arguments name. The first argument is the name of the program, as in
/// `env::args`.
pub fn read_words<'a>(alloc: Global, words: &'a [String]) -> Result<Command<'a>, WordsFault>
    ensures { IsReading (map string_bytes words.entry.now) result }
{
    match matches(alloc, all_choices(), words) {
        Ok(found) => match named_command(&found) {
            Some(command) => Ok(command),
            None => unreachable!(),
        },
        Err(error) => Err(clap_fault(alloc, &error)),
    }
}

/// Returns the fault for an error of `clap`.
fn clap_fault(alloc: Global, error: &Error) -> WordsFault
    ensures { IsFaultOfError error.now result }
{
    if error.kind() == ErrorKind::OutOfMemory {
        return WordsFault::NoMemory;
    }
    match error.to_string(alloc) {
        Ok(text) => WordsFault::Refused(text),
        Err(_) => WordsFault::NoMemory,
    }
}

/// Reads the command and its options. `None`: the command is unknown, or an option is not valid.
fn named_command<'a>(found: &ArgMatches<'a>) -> Option<Command<'a>>
    ensures { FindsCommand (subcommand_rows_of found.now) (option_map order_of result) }
{
    match subcommand_found(found)? {
        ("talk", options) => talk_of(options),
        ("new", options) => new_of(options),
        ("serve", options) => serve_of(options),
        ("check", options) => check_of(options),
        ("migrate", options) => migrate_of(options),
        ("extract", options) => extract_of(options),
        ("digest", options) => digest_of(options),
        _ => None,
    }
}

/// Reads the options of `talk`.
fn talk_of<'a>(found: &ArgMatches<'a>) -> Option<Command<'a>>
    ensures { HasOptionsOf (codes "talk") (rows_of (found_of found.now)) (option_map order_of result) }
{
    let clock = clock_of(found)?;
    Some(Command::Talk { clock })
}

/// Reads the options of `new`.
fn new_of<'a>(found: &ArgMatches<'a>) -> Option<Command<'a>>
    ensures { HasOptionsOf (codes "new") (rows_of (found_of found.now)) (option_map order_of result) }
{
    let file = text_of(found, "file")?;
    Some(Command::New { file })
}

/// Reads the options of `serve`.
fn serve_of<'a>(found: &ArgMatches<'a>) -> Option<Command<'a>>
    ensures { HasOptionsOf (codes "serve") (rows_of (found_of found.now)) (option_map order_of result) }
{
    let file = text_of(found, "file")?;
    let port = port_of(found)?;
    let connections = connections_of(found)?;
    let at_once = at_once_of(found)?;
    Some(Command::Serve {
        file,
        port,
        connections,
        at_once,
    })
}

/// Reads the options of `check`.
fn check_of<'a>(found: &ArgMatches<'a>) -> Option<Command<'a>>
    ensures { HasOptionsOf (codes "check") (rows_of (found_of found.now)) (option_map order_of result) }
{
    let file = text_of(found, "file")?;
    Some(Command::Check { file })
}

/// Reads the options of `migrate`.
fn migrate_of<'a>(found: &ArgMatches<'a>) -> Option<Command<'a>>
    ensures { HasOptionsOf (codes "migrate") (rows_of (found_of found.now)) (option_map order_of result) }
{
    let file = text_of(found, "file")?;
    Some(Command::Migrate { file })
}

/// Reads the options of `extract`.
fn extract_of<'a>(found: &ArgMatches<'a>) -> Option<Command<'a>>
    ensures { HasOptionsOf (codes "extract") (rows_of (found_of found.now)) (option_map order_of result) }
{
    let file = text_of(found, "file")?;
    let clock = clock_of(found)?;
    let caller = caller_of(found)?;
    let kind = kind_of(found)?;
    let at = at_of(found)?;
    Some(Command::Extract {
        file,
        clock,
        caller,
        kind,
        at,
    })
}

/// Reads the options of `digest`.
fn digest_of<'a>(found: &ArgMatches<'a>) -> Option<Command<'a>>
    ensures { HasOptionsOf (codes "digest") (rows_of (found_of found.now)) (option_map order_of result) }
{
    let file = text_of(found, "file")?;
    let at = at_of(found)?;
    Some(Command::Digest { file, at })
}

/// Reads `--clock`, in Unix milliseconds.
fn clock_of(found: &ArgMatches<'_>) -> Option<i64>
    ensures { IsOptionNumber (rows_of (found_of found.now)) (codes "clock") (pos 0) last_moment result }
{
    number_of(found, "clock", 0, LAST_MOMENT)
}

/// Reads `--party` and `--role`.
fn caller_of(found: &ArgMatches<'_>) -> Option<Caller>
    ensures { IsCallerOption (rows_of (found_of found.now)) result }
{
    let party = party_of(found)?;
    let role = role_of(found)?;
    Some(Caller { party, role })
}

/// Reads `--party`.
fn party_of(found: &ArgMatches<'_>) -> Option<u64>
    ensures { IsOptionNumber (rows_of (found_of found.now)) (codes "party") (pos 1) (pos 1000000000)
        (option_map pos result) }
{
    let party = number_of(found, "party", 1, LAST_PARTY)?;
    u64::try_from(party).ok()
}

/// Reads `--role`.
fn role_of(found: &ArgMatches<'_>) -> Option<Role>
    ensures { IsChoiceOf role_word (rows_of (found_of found.now)) (codes "role") result }
{
    role_from_word(text_of(found, "role")?)
}

/// Returns the role of a word.
fn role_from_word(word: &str) -> Option<Role>
    ensures { IsWordOf role_word word.now result }
{
    match word {
        "citizen" => Some(Role::Citizen),
        "conveyancer" => Some(Role::Conveyancer),
        "notary" => Some(Role::Notary),
        "bank" => Some(Role::Bank),
        "certifiedSurveyor" => Some(Role::CertifiedSurveyor),
        "stateAdministrator" => Some(Role::StateAdministrator),
        _ => None,
    }
}

/// Reads `--kind`.
fn kind_of(found: &ArgMatches<'_>) -> Option<Kind>
    ensures { IsChoiceOf kind_word (rows_of (found_of found.now)) (codes "kind") result }
{
    kind_from_word(text_of(found, "kind")?)
}

/// Returns the kind of a word.
fn kind_from_word(word: &str) -> Option<Kind>
    ensures { IsWordOf kind_word word.now result }
{
    match word {
        "party" => Some(Kind::Party),
        "unit" => Some(Kind::Unit),
        "parcel" => Some(Kind::Parcel),
        "rrr" => Some(Kind::Rrr),
        "source" => Some(Kind::Source),
        "mutation" => Some(Kind::Mutation),
        _ => None,
    }
}

/// Reads `--at`, in Unix milliseconds. `Some(None)`: the option is absent.
fn at_of(found: &ArgMatches<'_>) -> Option<Option<i64>>
    ensures { IsOptionalNumber (rows_of (found_of found.now)) (codes "at") (pos 0) last_moment result }
{
    if text_of(found, "at").is_none() {
        return Some(None);
    }
    let at = number_of(found, "at", 0, LAST_MOMENT)?;
    Some(Some(at))
}

/// Reads `--port`.
fn port_of(found: &ArgMatches<'_>) -> Option<u16>
    ensures { IsOptionNumber (rows_of (found_of found.now)) (codes "port") (pos 1) (pos 65535)
        (option_map pos result) }
{
    let port = number_of(found, "port", 1, LAST_PORT)?;
    u16::try_from(port).ok()
}

/// Reads `--connections`.
fn connections_of(found: &ArgMatches<'_>) -> Option<u32>
    ensures { IsOptionNumber (rows_of (found_of found.now)) (codes "connections") (pos 1) (pos 1000000)
        (option_map pos result) }
{
    let connections = number_of(found, "connections", 1, MAX_CONNECTIONS)?;
    u32::try_from(connections).ok()
}

/// Reads `--at-once`, by default 1.
fn at_once_of(found: &ArgMatches<'_>) -> Option<u16>
    ensures { IsNumberOr (rows_of (found_of found.now)) (codes "at-once") (pos 1) (pos 1024) (pos 1)
        (option_map pos result) }
{
    if text_of(found, "at-once").is_none() {
        return Some(1);
    }
    let at_once = number_of(found, "at-once", 1, MAX_AT_ONCE)?;
    u16::try_from(at_once).ok()
}
