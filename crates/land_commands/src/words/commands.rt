//! Declares the commands of the program to `clap`. Each option and each command is added by a small function,
//! so that each proof is about one of them.
ghost use Rattle.std.specs.Prelude.{IfOk};
ghost use Rattle.clap.specs.Words.{App, Rule, new_app, with_rule, with_subcommand};
ghost use Rattle.land_commands.specs.Words.Commands.{IsCommand, check_app, digest_app, extract_app, land_app};
ghost use Rattle.land_commands.specs.Words.Commands.{make_app, migrate_app};
ghost use Rattle.land_commands.specs.Words.Commands.{of_commands, serve_app, talk_app, with_caller};
ghost use Rattle.land_commands.specs.Words.Commands.{with_clock};
ghost use Rattle.land_commands.specs.Words.Options.{IsOption};

use crate::words::choices::Choices;
use crate::words::options::{
    at_once_option, at_option, clock_option, connections_option, file_option, kind_option,
    party_option, port_option, role_option, upto_option,
};
use clap::{Arg, Command};
use std::alloc::{AllocError, Global};

/// The end of the help text: the options of each command, the values of the options, and examples.
const MORE: &str = "Options of the commands, of which those in brackets may be left out:
  talk     --clock <MS>
  new      --file <FILE>
  serve    --file <FILE> --port <PORT> --connections <COUNT> [--at-once <LIMIT>]
  check    --file <FILE>
  migrate  --file <FILE>
  extract  --file <FILE> --clock <MS> --party <NUMBER> --role <ROLE> --kind <KIND> [--at <MS>]
  digest   --file <FILE> [--at <MS>]

MS counts milliseconds since 1970 UTC, 0 to 4102444799999. A fault is told on standard error, with status 1; so are this
help and what is wrong with the words, with status 2.

Examples:
  land new --file town.land
  land serve --file town.land --port 8080 --connections 1000
  land extract --file town.land --clock 1000 --party 1 --role stateAdministrator --kind party

More on a command, with an example: land COMMAND --help";

/// Creates a command with its help text: a description, and an example at the end.
fn described_command<'a>(
    alloc: Global,
    name: &'a str,
    about: &'a str,
    example: &'a str,
) -> Command<'a>
    ensures { IsCommand (new_app name.entry.now) result }
{
    Command::new(alloc, name).about(about).after_help(example)
}

/// Adds an option to a command.
fn with_option<'a>(command: Command<'a>, option: Arg<'a>) -> Result<Command<'a>, AllocError>
    ensures { (app : App) (rule : Rule) → IsCommand app command.entry → IsOption rule option.entry
        → IfOk result (IsCommand (with_rule app rule)) }
{
    command.arg(option)
}

/// Requires one of the subcommands, and removes the subcommand `help`.
fn of_commands<'a>(command: Command<'a>) -> Command<'a>
    ensures { (app : App) → IsCommand app command.entry → IsCommand (of_commands app) result }
{
    command
        .subcommand_required(true)
        .disable_help_subcommand(true)
}

/// Adds a subcommand.
fn with_command<'a>(above: Command<'a>, command: Command<'a>) -> Result<Command<'a>, AllocError>
    ensures { (app : App) (below : App) → IsCommand app above.entry → IsCommand below command.entry
        → IfOk result (IsCommand (with_subcommand app below.top)) }
{
    above.subcommand(command)
}

/// Declares `talk`.
fn talk<'a>(alloc: Global) -> Result<Command<'a>, AllocError>
    ensures { IfOk result (IsCommand talk_app) }
{
    let about =
        "Answers the HTTP requests on standard input over a new register, which is kept in memory alone";
    let example = "Example: land talk --clock 1000 < requests.http";
    let talk = described_command(alloc, "talk", about, example);
    with_option(talk, clock_option(alloc))
}

/// Declares `new`.
fn make<'a>(alloc: Global) -> Result<Command<'a>, AllocError>
    ensures { IfOk result (IsCommand make_app) }
{
    let about = "Makes a new register in a file, and prints nothing";
    let example = "Example: land new --file town.land";
    let make = described_command(alloc, "new", about, example);
    let file = file_option(
        alloc,
        "The file to make; one that has tables is left as it is",
    );
    with_option(make, file)
}

/// Declares `serve`.
fn serve<'a>(alloc: Global) -> Result<Command<'a>, AllocError>
    ensures { IfOk result (IsCommand serve_app) }
{
    let about =
        "Answers HTTP connections on 127.0.0.1, one after another, over the register in a file";
    let example = "Example: land serve --file town.land --port 8080 --connections 1000
While it runs: curl -H 'Register-Party: 1' -H 'Register-Role: stateAdministrator' http://127.0.0.1:8080/parties";
    let serve = described_command(alloc, "serve", about, example);
    let with_file = with_option(
        serve,
        file_option(alloc, "The file of the register, as 'land new' makes it"),
    )?;
    let with_port = with_option(with_file, port_option(alloc))?;
    let with_connections = with_option(with_port, connections_option(alloc))?;
    with_option(with_connections, at_once_option(alloc))
}

/// Declares `check`.
fn check<'a>(alloc: Global) -> Result<Command<'a>, AllocError>
    ensures { IfOk result (IsCommand check_app) }
{
    let about =
        "Says whether a file holds a sound register, with its last moment and its next number";
    let example = "Example: land check --file town.land";
    let check = described_command(alloc, "check", about, example);
    let file = file_option(alloc, "The file of the register");
    with_option(check, file)
}

/// Declares `migrate`.
fn migrate<'a>(alloc: Global) -> Result<Command<'a>, AllocError>
    ensures { IfOk result (IsCommand migrate_app) }
{
    let about =
        "Makes of a register of version 1 in a file, which has no mandates, one of version 2";
    let example = "Example: land migrate --file town.land";
    let migrate = described_command(alloc, "migrate", about, example);
    let file = file_option(alloc, "The file of the register");
    with_option(migrate, file)
}

/// Adds the options `--file` and `--clock`.
fn with_clock<'a>(alloc: Global, command: Command<'a>) -> Result<Command<'a>, AllocError>
    ensures { (app : App) → IsCommand app command.entry → IfOk result (IsCommand (with_clock app)) }
{
    let with_file = with_option(command, file_option(alloc, "The file of the register"))?;
    with_option(with_file, clock_option(alloc))
}

/// Adds the options `--party` and `--role`: the caller.
fn with_caller<'a>(
    alloc: Global,
    command: Command<'a>,
    roles: &'a [&'a str],
) -> Result<Command<'a>, AllocError>
    ensures { (app : App) → IsCommand app command.entry
        → IfOk result (IsCommand (with_caller roles.entry app)) }
{
    let with_party = with_option(command, party_option(alloc))?;
    with_option(with_party, role_option(alloc, roles))
}

/// Declares `extract`.
fn extract<'a>(alloc: Global, choices: Choices<'a>) -> Result<Command<'a>, AllocError>
    ensures { IfOk result (IsCommand (extract_app choices.entry)) }
{
    let about =
        "Prints what a party sees of one kind in the register in a file, as CSV, and changes nothing";
    let example =
        "Example: land extract --file town.land --clock 1000 --party 3 --role citizen --kind rrr";
    let extract = described_command(alloc, "extract", about, example);
    let timed = with_clock(alloc, extract)?;
    let asked = with_caller(alloc, timed, choices.roles)?;
    let with_kind = with_option(asked, kind_option(alloc, choices.kinds))?;
    with_option(with_kind, at_option(alloc))
}

/// Declares `digest`.
fn digest<'a>(alloc: Global) -> Result<Command<'a>, AllocError>
    ensures { IfOk result (IsCommand digest_app) }
{
    let about =
        "Prints the digest of the history in the register in a file: SHA-256 of a text that lists all its events";
    let example = "Example: land digest --file town.land";
    let digest = described_command(alloc, "digest", about, example);
    let with_file = with_option(digest, file_option(alloc, "The file of the register"))?;
    with_option(with_file, upto_option(alloc))
}

/// Declares the program with all its commands. `choices`: the words for roles and kinds.
pub fn land<'a>(alloc: Global, choices: Choices<'a>) -> Result<Command<'a>, AllocError>
    ensures { IfOk result (IsCommand (land_app choices.entry)) }
{
    let about =
        "A land register: parties, their rights, restrictions and responsibilities, and the land that these are of";
    let land = of_commands(described_command(alloc, "land", about, MORE));
    let with_talk = with_command(land, talk(alloc)?)?;
    let with_new = with_command(with_talk, make(alloc)?)?;
    let with_serve = with_command(with_new, serve(alloc)?)?;
    let with_check = with_command(with_serve, check(alloc)?)?;
    let with_migrate = with_command(with_check, migrate(alloc)?)?;
    let with_extract = with_command(with_migrate, extract(alloc, choices)?)?;
    with_command(with_extract, digest(alloc)?)
}
