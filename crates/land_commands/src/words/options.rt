//! Declares the options of the commands to `clap`.
ghost use Rattle.std.specs.Prelude.{pos, true};
ghost use Rattle.land_commands.specs.Words.Options.{IsOption, at_once_rule, at_rule, clock_rule};
ghost use Rattle.land_commands.specs.Words.Options.{connections_rule, file_rule};
ghost use Rattle.land_commands.specs.Words.Options.{kind_rule, moment_rule, option_rule, party_rule};
ghost use Rattle.land_commands.specs.Words.Options.{port_rule};
ghost use Rattle.land_commands.specs.Words.Options.{role_rule};

use clap::Arg;
use clap::builder::ValueParser;
use land_core::limits::LAST_MOMENT;
use std::alloc::Global;

/// The largest port.
pub const LAST_PORT: i64 = 65_535;

/// The largest number of connections to serve.
pub const MAX_CONNECTIONS: i64 = 1_000_000;

/// The largest number of connections that are open at the same time.
pub const MAX_AT_ONCE: i64 = 1024;

/// The largest number of a party that may be the caller.
pub const LAST_PARTY: i64 = 1_000_000_000;

/// Declares an option `--NAME VALUE`.
fn option<'a>(
    alloc: Global,
    name: &'a str,
    value_name: &'a str,
    help: &'a str,
    is_required: bool,
    values: ValueParser<'a>,
) -> Arg<'a>
    ensures { IsOption (option_rule name.entry.now is_required values.entry) result }
{
    Arg::new(alloc, name)
        .long(name)
        .value_name(value_name)
        .help(help)
        .required(is_required)
        .value_parser(values)
}

/// Declares an option `--NAME MS`: a moment in Unix milliseconds, from 0 to the last moment.
fn moment_option<'a>(alloc: Global, name: &'a str, help: &'a str, is_required: bool) -> Arg<'a>
    ensures { IsOption (moment_rule name.entry.now is_required) result }
{
    let moments = clap::value_parser!(i64).range(0..=LAST_MOMENT);
    option(alloc, name, "MS", help, is_required, moments)
}

/// Declares `--clock MS`.
pub fn clock_option<'a>(alloc: Global) -> Arg<'a>
    ensures { IsOption clock_rule result }
{
    let help = "What the clock always reads, in milliseconds since 1970 UTC, 0 to 4102444799999";
    moment_option(alloc, "clock", help, true)
}

/// Declares `--at MS` of `extract`, which is optional.
pub fn at_option<'a>(alloc: Global) -> Arg<'a>
    ensures { IsOption at_rule result }
{
    let help =
        "The moment to look at, in milliseconds since 1970 UTC, 0 to 4102444799999; if it is left out, that of the clock";
    moment_option(alloc, "at", help, false)
}

/// Declares `--at MS` of `digest`: the option of `extract` with another help text.
pub fn upto_option<'a>(alloc: Global) -> Arg<'a>
    ensures { IsOption at_rule result }
{
    let help =
        "The moment up to which the history counts, in milliseconds since 1970 UTC, 0 to 4102444799999; if it is left out, all of it";
    at_option(alloc).help(help)
}

/// Declares `--file FILE`: any text.
pub fn file_option<'a>(alloc: Global, help: &'a str) -> Arg<'a>
    ensures { IsOption file_rule result }
{
    let texts = clap::value_parser!(String);
    option(alloc, "file", "FILE", help, true, texts)
}

/// Declares `--port PORT`: 1 to 65535.
pub fn port_option<'a>(alloc: Global) -> Arg<'a>
    ensures { IsOption port_rule result }
{
    let help = "The port to listen on, 1 to 65535";
    let ports = clap::value_parser!(u16).range(1..=LAST_PORT);
    option(alloc, "port", "PORT", help, true, ports)
}

/// Declares `--connections COUNT`: 1 to 1000000.
pub fn connections_option<'a>(alloc: Global) -> Arg<'a>
    ensures { IsOption connections_rule result }
{
    let help = "How many connections to answer before it ends, 1 to 1000000";
    let counts = clap::value_parser!(u32).range(1..=MAX_CONNECTIONS);
    option(alloc, "connections", "COUNT", help, true, counts)
}

/// Declares `--at-once LIMIT`, which is optional: 1 to 1024.
pub fn at_once_option<'a>(alloc: Global) -> Arg<'a>
    ensures { IsOption at_once_rule result }
{
    let help = "How many connections to answer at the same time, 1 to 1024; if it is left out, 1";
    let limits = clap::value_parser!(u16).range(1..=MAX_AT_ONCE);
    option(alloc, "at-once", "LIMIT", help, false, limits)
}

/// Declares `--party NUMBER`: 1 to 1000000000.
pub fn party_option<'a>(alloc: Global) -> Arg<'a>
    ensures { IsOption party_rule result }
{
    let help = "The number of the party that asks, 1 to 1000000000";
    let parties = clap::value_parser!(i64).range(1..=LAST_PARTY);
    option(alloc, "party", "NUMBER", help, true, parties)
}

/// Declares `--role ROLE`: one of these words.
pub fn role_option<'a>(alloc: Global, roles: &'a [&'a str]) -> Arg<'a>
    ensures { IsOption (role_rule roles.entry) result }
{
    let help = "The role in which the party asks";
    option(alloc, "role", "ROLE", help, true, ValueParser::Names(roles))
}

/// Declares `--kind KIND`: one of these words.
pub fn kind_option<'a>(alloc: Global, kinds: &'a [&'a str]) -> Arg<'a>
    ensures { IsOption (kind_rule kinds.entry) result }
{
    let help = "Of which kind the objects are";
    option(alloc, "kind", "KIND", help, true, ValueParser::Names(kinds))
}
