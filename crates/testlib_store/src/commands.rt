//! Commands on files, in the folder in which the tests run. The steps are written for any host, and run on
//! this one by `land_commands::local`.
use land_commands::host::Host;
use land_commands::local::machine::{Work, on_local_host};
use land_commands::program_fault::ProgramFault;
use land_commands::run::run_command;
use land_commands::words::command::Command;
use land_core::caller::Caller;
use land_core::kind::Kind;
use land_core::role::Role;
use land_select::sql_keeper::SqlKeeper;
use land_tables::tables::Tables;
use sqlite::{Alter, Connection};
use std::fs;
use std::net::TcpListener;
use std::rt::HostRuntime;
use testlib_scenario::doubles::{ClockReadings, Sink};
use testlib_scenario::run_scenario::{open_sink, play_steps};
use testlib_scenario::stop::{Stop, expect};

/// The paths of a test's file and of its write-ahead log.
#[derive(Clone, Copy)]
struct Place(&'static str, &'static str);

/// A command on a file.
#[derive(Clone, Copy)]
enum Deed {
    /// Creates a register.
    New,
    /// Checks the register.
    Check,
    /// Migrates the register.
    Migrate,
    /// Serves one connection on this port.
    Serve(u16),
    /// Serves one connection on this port, as a service of several at the same time.
    ServeAtOnce(u16),
    /// Extracts the entries that this party sees in this role, at a moment or now.
    Extract(u64, Role, Option<i64>),
}

/// A command on a file, with its exit status, its output, and its error output.
#[derive(Clone, Copy)]
struct Step(Deed, u8, &'static str, &'static str);

/// The output of a check of a new register.
const NEW_IS_SOUND: &str = "sound: last 0, next 2\n";

const CANNOT_OPEN: &str = "land: cannot open\n";

const CANNOT_LISTEN: &str = "land: cannot listen\n";

/// The error of `new` if the store has tables.
const HAS_TABLES: &str = "land: fault 502\n";

/// The error if the tables are not those of a register.
const NOT_OURS: &str = "land: fault 520\n";

/// The error if the register has another schema version.
const OTHER_VERSION: &str = "land: fault 523\n";

/// Returns the command line of a command.
fn command(deed: Deed, file: &'static str) -> Command<'static> {
    match deed {
        Deed::New => Command::New { file },
        Deed::Check => Command::Check { file },
        Deed::Migrate => Command::Migrate { file },
        Deed::Serve(port) => Command::Serve {
            file,
            port,
            connections: 1,
            at_once: 1,
        },
        Deed::ServeAtOnce(port) => Command::Serve {
            file,
            port,
            connections: 1,
            at_once: 2,
        },
        Deed::Extract(party, role, at) => Command::Extract {
            file,
            clock: 1000,
            caller: Caller { party, role },
            kind: Kind::Rrr,
            at,
        },
    }
}

/// Runs a command on a host, and returns its exit status.
fn status<H: Host>(host: &mut H, command: Command<'_>, output: &mut Sink, errors: &mut Sink) -> u8 {
    let mut input: &[u8] = b"";
    let mut clock = ClockReadings { left: &[] };
    run_command(host, command, &mut input, output, errors, &mut clock)
}

/// Returns whether a command has reported that it was out of memory (501).
fn lacked_memory(errors: &Sink) -> bool {
    errors.taken.as_slice() == b"land: fault 501\n".as_slice()
}

/// Checks the result of a command against its step. An out-of-memory error stops the test.
fn expect_end(
    file: &'static str,
    place: usize,
    step: Step,
    status: u8,
    output: &Sink,
    errors: &Sink,
) -> Result<(), Stop> {
    if lacked_memory(errors) {
        return Err(Stop::Memory);
    }
    let is_said = output.taken.as_slice() == step.2.as_bytes()
        && errors.taken.as_slice() == step.3.as_bytes();
    expect(is_said && status == step.1, file, place)
}

/// Runs a step and checks its result, with this output.
fn run_step_with<H: Host>(
    host: &mut H,
    file: &'static str,
    place: usize,
    step: Step,
    output: &mut Sink,
) -> Result<(), Stop> {
    let mut errors = open_sink(host.alloc(), 64)?;
    let status = status(host, command(step.0, file), output, &mut errors);
    expect_end(file, place, step, status, output, &errors)
}

/// Runs a step and checks its result.
fn run_step<H: Host>(
    host: &mut H,
    file: &'static str,
    place: usize,
    step: Step,
) -> Result<(), Stop> {
    let mut output = open_sink(host.alloc(), 64)?;
    run_step_with(host, file, place, step, &mut output)
}

/// Runs steps in order and checks their results.
fn run_steps<H: Host>(host: &mut H, file: &'static str, steps: &[Step]) -> Result<(), Stop> {
    for (place, step) in steps.iter().enumerate() {
        run_step(host, file, place, *step)?;
    }
    Ok(())
}

/// Deletes the files of a test, if they exist.
fn delete_files(rt: &HostRuntime, place: Place) {
    let _ = fs::remove_file(rt, place.0);
    let _ = fs::remove_file(rt, place.1);
}

/// Writes these bytes to a new file.
fn write(rt: &HostRuntime, place: Place, bytes: &[u8]) -> Result<(), Stop> {
    delete_files(rt, place);
    Ok(fs::write(rt, place.0, bytes)?)
}

/// Checks that a file still has these bytes, and no write-ahead log.
fn expect_unchanged(rt: &HostRuntime, place: Place, bytes: &[u8]) -> Result<(), Stop> {
    let has_log = fs::exists(rt, place.1)?;
    let read = fs::read(rt, place.0)?;
    expect(read.as_slice() == bytes && !has_log, place.0, usize::MAX)
}

/// The test cases on files.
#[derive(Clone, Copy)]
enum Case {
    New,
    Played,
    Old,
    Missing,
    NoFile,
    Empty,
    Notes,
    Foreign,
    Held,
    Taken,
}

/// A test case, with the runtime for its own file access.
#[derive(Clone, Copy)]
struct Trial<'a> {
    rt: &'a HostRuntime,
    case: Case,
}

impl Work for Trial<'_> {
    type Outcome = Result<(), Stop>;

    fn done_on<H: Host>(self, host: &mut H) -> Result<(), Stop> {
        match self.case {
            Case::New => check_new(self.rt, host),
            Case::Played => check_played(self.rt, host),
            Case::Old => check_migrated(self.rt, host),
            Case::Missing => check_missing(self.rt, host),
            Case::NoFile => check_non_files(host),
            Case::Empty => check_empty(self.rt, host),
            Case::Notes => check_notes(self.rt, host),
            Case::Foreign => check_foreign(self.rt, host),
            Case::Held => check_open_elsewhere(self.rt, host),
            Case::Taken => check_used_port(self.rt, host),
        }
    }
}

/// Runs a test case on this host.
fn run_case(rt: &HostRuntime, case: Case) -> Result<(), Stop> {
    on_local_host(rt, Trial { rt, case })
}

const NEW: Place = Place("land_new.land", "land_new.land-wal");

/// A register is created only once.
const MADE: &[Step] = &[
    Step(Deed::New, 0, "", ""),
    Step(Deed::Check, 0, NEW_IS_SOUND, ""),
    Step(Deed::New, 1, "", HAS_TABLES),
    Step(Deed::Check, 0, NEW_IS_SOUND, ""),
];

/// Checks that a created register is sound, and is not created again.
fn check_new<H: Host>(rt: &HostRuntime, host: &mut H) -> Result<(), Stop> {
    delete_files(rt, NEW);
    run_steps(host, NEW.0, MADE)?;
    delete_files(rt, NEW);
    Ok(())
}

/// A new register is sound.
pub fn a_new_register_is_sound(rt: &HostRuntime) -> Result<(), Stop> {
    run_case(rt, Case::New)
}

/// Returns the reason for stopping a test if a store cannot be opened.
fn stop_of(fault: ProgramFault) -> Stop {
    match fault {
        ProgramFault::NoMemory => Stop::Memory,
        _ => Stop::Call,
    }
}

/// Opens the store of a new file.
fn opened<H: Host>(
    rt: &HostRuntime,
    host: &mut H,
    place: Place,
) -> Result<Connection<H::Store>, Stop> {
    delete_files(rt, place);
    match host.open_or_create(place.0) {
        Ok(conn) => Ok(conn),
        Err(fault) => Err(stop_of(fault)),
    }
}

/// Creates a register in a new file.
fn made<H: Host>(rt: &HostRuntime, host: &mut H, place: Place) -> Result<Tables<H::Store>, Stop> {
    match Tables::create(opened(rt, host, place)?) {
        Ok(tables) => Ok(tables),
        Err((_, fault)) => Err(Stop::from(fault)),
    }
}

/// Plays the scenario on a new register in a file, and returns its store.
fn played<H: Host>(
    rt: &HostRuntime,
    host: &mut H,
    place: Place,
) -> Result<Connection<H::Store>, Stop> {
    let mut keeper = SqlKeeper::new(made(rt, host, place)?);
    play_steps(host.alloc(), &mut keeper)?;
    Ok(keeper.into_tables().into_connection())
}

/// Plays the scenario on a new register in a file.
fn play<H: Host>(rt: &HostRuntime, host: &mut H, place: Place) -> Result<(), Stop> {
    played(rt, host, place)?;
    Ok(())
}

const PLAYED: Place = Place("land_played.land", "land_played.land-wal");

/// The entries that Ben sees after the scenario.
const ENTRIES: &str = r#"number,unit,party,name,class,share,amount,currency,rank,words,source
13,9,6,Sam,lease,1/1,,,,,8
16,9,4,"Bank, ""North""",mortgage,,2500000,EUR,1,,14
21,9,3,Ben,ownership,1/1,,,,,19
27,25,6,Sam,lease,1/1,,,,,8
28,25,4,"Bank, ""North""",mortgage,,2500000,EUR,1,,14
29,25,3,Ben,ownership,1/1,,,,,19
"#;

/// The extract of a caller who sees no entry.
const NO_ENTRIES: &str = "number,unit,party,name,class,share,amount,currency,rank,words,source\n";

/// Last stamp, next number and extracts after the scenario.
const AFTER_STEPS: &[Step] = &[
    Step(Deed::Check, 0, "sound: last 1017, next 30\n", ""),
    Step(Deed::Extract(3, Role::Citizen, None), 0, ENTRIES, ""),
    Step(
        Deed::Extract(6, Role::CertifiedSurveyor, None),
        0,
        NO_ENTRIES,
        "",
    ),
    Step(
        Deed::Extract(3, Role::Citizen, Some(1018)),
        1,
        "",
        "land: fault 135\n",
    ),
    Step(
        Deed::Extract(9, Role::Citizen, None),
        1,
        "",
        "land: denied 1\n",
    ),
];

/// Checks that the register is sound after the scenario, and its extracts.
fn check_played<H: Host>(rt: &HostRuntime, host: &mut H) -> Result<(), Stop> {
    play(rt, host, PLAYED)?;
    run_steps(host, PLAYED.0, AFTER_STEPS)?;
    delete_files(rt, PLAYED);
    Ok(())
}

/// The scenario leaves a sound register.
pub fn the_scenario_leaves_a_sound_register(rt: &HostRuntime) -> Result<(), Stop> {
    run_case(rt, Case::Played)
}

const OLD: Place = Place("land_old.land", "land_old.land-wal");

/// Plays the scenario on a new register in a file, and turns it into one of schema version 1.
fn play_v1<H: Host>(rt: &HostRuntime, host: &mut H) -> Result<(), Stop> {
    let mut conn = played(rt, host, OLD)?;
    run(
        &mut conn,
        "DROP TABLE mandate; UPDATE edition SET version = 1",
    )
}

/// A register of schema version 1 is migrated once, and then has version 2.
const MIGRATED: &[Step] = &[
    Step(Deed::Check, 1, "", OTHER_VERSION),
    Step(Deed::Migrate, 0, "migrated: last 1017, next 30\n", ""),
    Step(Deed::Check, 0, "sound: last 1017, next 30\n", ""),
    Step(Deed::Migrate, 1, "", OTHER_VERSION),
    Step(Deed::Check, 0, "sound: last 1017, next 30\n", ""),
    Step(Deed::Extract(3, Role::Citizen, None), 0, ENTRIES, ""),
];

/// Checks that only a register of schema version 1 is migrated.
fn check_migrated<H: Host>(rt: &HostRuntime, host: &mut H) -> Result<(), Stop> {
    play_v1(rt, host)?;
    run_steps(host, OLD.0, MIGRATED)?;
    delete_files(rt, OLD);
    Ok(())
}

/// A register of schema version 1 is migrated once.
pub fn a_v1_register_is_migrated_once(rt: &HostRuntime) -> Result<(), Stop> {
    run_case(rt, Case::Old)
}

const MISSING: Place = Place("land_missing.land", "land_missing.land-wal");

/// No register is opened if the file cannot be opened.
const CANNOT_BE_OPENED: &[Step] = &[
    Step(Deed::Check, 1, "", CANNOT_OPEN),
    Step(Deed::Migrate, 1, "", CANNOT_OPEN),
    Step(Deed::Serve(1), 1, "", CANNOT_OPEN),
    Step(Deed::ServeAtOnce(1), 1, "", CANNOT_OPEN),
    Step(Deed::Extract(1, Role::Citizen, None), 1, "", CANNOT_OPEN),
];

/// And none is created.
const CANNOT_BE_CREATED: &[Step] = &[Step(Deed::New, 1, "", CANNOT_OPEN)];

/// Checks that no command creates a missing file.
fn check_missing<H: Host>(rt: &HostRuntime, host: &mut H) -> Result<(), Stop> {
    delete_files(rt, MISSING);
    run_steps(host, MISSING.0, CANNOT_BE_OPENED)?;
    let is_there = fs::exists(rt, MISSING.0)?;
    let has_log = fs::exists(rt, MISSING.1)?;
    expect(!is_there && !has_log, MISSING.0, usize::MAX)
}

/// No command creates a missing file, except `new`.
pub fn missing_files_are_not_created(rt: &HostRuntime) -> Result<(), Stop> {
    run_case(rt, Case::Missing)
}

/// Names that are not files: a folder, the empty name, a file in a missing folder.
const NO_FILES: &[&str] = &[".", "", "no/such/folder"];

/// Checks that no register is opened or created under such a name.
fn check_non_files<H: Host>(host: &mut H) -> Result<(), Stop> {
    for name in NO_FILES {
        run_steps(host, name, CANNOT_BE_OPENED)?;
        run_steps(host, name, CANNOT_BE_CREATED)?;
    }
    Ok(())
}

/// A name that is not a file cannot be opened.
pub fn non_files_cannot_be_opened(rt: &HostRuntime) -> Result<(), Stop> {
    run_case(rt, Case::NoFile)
}

const EMPTY: Place = Place("land_empty.land", "land_empty.land-wal");

/// A file without the tables of a register.
const UNOWNED: &[Step] = &[
    Step(Deed::Check, 1, "", NOT_OURS),
    Step(Deed::Migrate, 1, "", NOT_OURS),
    Step(Deed::Serve(1), 1, "", NOT_OURS),
    Step(Deed::ServeAtOnce(1), 1, "", NOT_OURS),
];

/// Checks that an empty file is not a register and stays empty, until one is created in it.
fn check_empty<H: Host>(rt: &HostRuntime, host: &mut H) -> Result<(), Stop> {
    write(rt, EMPTY, b"")?;
    run_steps(host, EMPTY.0, UNOWNED)?;
    expect_unchanged(rt, EMPTY, b"")?;
    run_steps(host, EMPTY.0, MADE)?;
    delete_files(rt, EMPTY);
    Ok(())
}

/// An empty file is not a register and stays empty.
pub fn an_empty_file_stays_empty(rt: &HostRuntime) -> Result<(), Stop> {
    run_case(rt, Case::Empty)
}

const NOTES: Place = Place("land_notes.txt", "land_notes.txt-wal");

/// The bytes of a file that is not a store.
const NOTE: &[u8] = b"SQLite format 3, and no more\n";

/// Checks that a file that is not a store stays unchanged.
fn check_notes<H: Host>(rt: &HostRuntime, host: &mut H) -> Result<(), Stop> {
    write(rt, NOTES, NOTE)?;
    run_steps(host, NOTES.0, CANNOT_BE_OPENED)?;
    run_steps(host, NOTES.0, CANNOT_BE_CREATED)?;
    expect_unchanged(rt, NOTES, NOTE)?;
    delete_files(rt, NOTES);
    Ok(())
}

/// A file that is not a store stays unchanged.
pub fn other_files_stay_unchanged(rt: &HostRuntime) -> Result<(), Stop> {
    run_case(rt, Case::Notes)
}

const FOREIGN: Place = Place("land_foreign.db", "land_foreign.db-wal");

/// Runs SQL statements on a store.
fn run<S: Alter>(conn: &mut Connection<S>, text: &str) -> Result<(), Stop> {
    conn.execute_batch(text)?;
    Ok(())
}

/// Creates a store of another application.
fn make_foreign<H: Host>(rt: &HostRuntime, host: &mut H) -> Result<(), Stop> {
    let mut conn = opened(rt, host, FOREIGN)?;
    run(&mut conn, "CREATE TABLE note (title TEXT)")
}

/// No register is created in it.
const OWNED_ELSEWHERE: &[Step] = &[Step(Deed::New, 1, "", HAS_TABLES)];

/// Checks that a store of another application is not a register, and no register is created in it.
fn check_foreign<H: Host>(rt: &HostRuntime, host: &mut H) -> Result<(), Stop> {
    make_foreign(rt, host)?;
    run_steps(host, FOREIGN.0, UNOWNED)?;
    run_steps(host, FOREIGN.0, OWNED_ELSEWHERE)?;
    run_steps(host, FOREIGN.0, UNOWNED)?;
    delete_files(rt, FOREIGN);
    Ok(())
}

/// A store of another application is rejected.
pub fn a_store_of_another_application_is_refused(rt: &HostRuntime) -> Result<(), Stop> {
    run_case(rt, Case::Foreign)
}

const HELD: Place = Place("land_held.land", "land_held.land-wal");

/// Checks that a file cannot be opened while its tables are open elsewhere, and then closes them.
fn run_steps_while_open<H: Host>(host: &mut H, tables: Tables<H::Store>) -> Result<(), Stop> {
    let found = run_steps(host, HELD.0, CANNOT_BE_OPENED);
    let made = run_steps(host, HELD.0, CANNOT_BE_CREATED);
    drop(tables);
    found.and(made)
}

/// After closing, the register is unchanged.
const CLOSED_AGAIN: &[Step] = &[Step(Deed::Check, 0, NEW_IS_SOUND, "")];

/// Checks that a file that is open elsewhere is rejected until it is closed.
fn check_open_elsewhere<H: Host>(rt: &HostRuntime, host: &mut H) -> Result<(), Stop> {
    let tables = made(rt, host, HELD)?;
    run_steps_while_open(host, tables)?;
    run_steps(host, HELD.0, CLOSED_AGAIN)?;
    delete_files(rt, HELD);
    Ok(())
}

/// A file that is open elsewhere cannot be opened.
pub fn an_open_file_cannot_be_opened_again(rt: &HostRuntime) -> Result<(), Stop> {
    run_case(rt, Case::Held)
}

const TAKEN: Place = Place("land_taken.land", "land_taken.land-wal");

/// Checks that a register cannot be served on a port in use.
fn serve_on<H: Host>(rt: &HostRuntime, host: &mut H, port: u16) -> Result<(), Stop> {
    delete_files(rt, TAKEN);
    let steps = [
        Step(Deed::New, 0, "", ""),
        Step(Deed::Serve(port), 1, "", CANNOT_LISTEN),
        Step(Deed::ServeAtOnce(port), 1, "", CANNOT_LISTEN),
    ];
    run_steps(host, TAKEN.0, &steps)?;
    delete_files(rt, TAKEN);
    Ok(())
}

/// Checks the same on the port of a listener.
fn serve_on_port_of<H: Host>(
    rt: &HostRuntime,
    host: &mut H,
    listener: &TcpListener,
) -> Result<(), Stop> {
    let at = listener.local_addr()?;
    serve_on(rt, host, at.port())
}

/// A port in use cannot be listened on.
fn check_used_port<H: Host>(rt: &HostRuntime, host: &mut H) -> Result<(), Stop> {
    let listener = TcpListener::bind(rt, "127.0.0.1:0")?;
    serve_on_port_of(rt, host, &listener)
}

/// A port in use cannot be listened on.
pub fn a_used_port_cannot_be_listened_on(rt: &HostRuntime) -> Result<(), Stop> {
    run_case(rt, Case::Taken)
}
