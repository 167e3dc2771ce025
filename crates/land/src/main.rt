//! The program of the land register. Passes the arguments, streams and clock of the process to
//! `land_commands`.
#![tactic(auto)]

use land_commands::host::Host;
use land_commands::local_host::LocalHost;
use land_commands::main_with::run_args;
use land_commands::program_fault::ProgramFault;
use land_commands::run::report_fault;
use land_desk::service::system_clock::SystemClock;
use land_desk::service::timer::RequestTimer;
use land_keep::clock::Clock;
use std::env;
use std::io::{Read, Write};
use std::process::ExitCode;
use std::rt::Env;

fn main(rt: HostRuntime) -> ExitCode {
    let watch = RequestTimer::new(rt);
    let mut host = LocalHost::new(&rt, &watch);
    let mut clock = SystemClock { machine: rt };
    let status = run_program(
        &rt,
        &mut host,
        &mut rt.stdin(),
        &mut rt.stdout(),
        &mut rt.stderr(),
        &mut clock,
    );
    ExitCode::from(status)
}

/// Runs the command that the arguments name, and returns the exit status.
fn run_program<R: Env + AllocGlobal, H: Host, I: Read, O: Write, E: Write, C: Clock>(
    rt: &R,
    host: &mut H,
    input: &mut I,
    output: &mut O,
    errors: &mut E,
    clock: &mut C,
) -> u8 {
    match arguments(rt) {
        Ok(arguments) => run_args(host, &arguments, input, output, errors, clock),
        Err(fault) => report_fault(errors, fault),
    }
}

/// Returns the arguments. The first is the name of the program.
fn arguments<R: Env + AllocGlobal>(rt: &R) -> Result<Vec<String>, ProgramFault> {
    Ok(env::args(rt)?.collect::<Vec<_>>(rt.alloc())?)
}
