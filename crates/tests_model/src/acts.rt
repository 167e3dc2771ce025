//! Acts on registers that are built by hand: their receipts or refusals, and the objects that exist
//! afterwards.
ghost use Rattle.std.specs.Prelude.{◌≡◌, true, IfOk};
ghost use Rattle.land_core.specs.Acts.{is_well_formed};
ghost use Rattle.land_core.specs.Soundness.{IsSound};

use crate::conclusion::conclude;
use crowd::{crowd, crowd_parcels};
use land_acts::plan::plan;
use land_acts::refusal::{Planned, Refusal};
use land_acts::slice::slice_of;
use land_core::act::Act;
use land_core::change::{Change, Done};
use land_core::kind::Kind;
use land_core::kind::PartyKind::NaturalPerson;
use land_core::party::PartyRecord;
use land_core::register::{Register, apply};
use land_core::role::Role;
use land_core::roles::Grant;
use land_core::soundness::Unsound;
use land_core::soundness::check::check;
use std::alloc::{AllocError, Global};
use std::process::Abort;
use std::test::Fail;
use testlib_cases::asked::{OFFICE, RowAct, act, text};
use testlib_cases::stop::{Stop, expect};
use testlib_cases::told::write_done;

mod burdens;
mod crowd;
mod deciding;
mod enrolling;
mod grouping;
mod parcels;
mod registering;
mod roles;

/// A step of a test: it changes the register, or checks it.
enum Step {
    /// An act, its stamp, and its receipt or refusal as a line.
    Row(RowAct, Option<i64>, &'static str),
    /// Gives unit 6 this number of restrictions, numbered from 20, and sets the next number to 1000.
    Crowd(u64),
    /// Gives unit 6 this number of parcels, numbered from 20, and sets the next number to 1000.
    Parcels(u64),
    /// Checks whether a party holds a role.
    Holds(u64, Role, bool),
    /// Checks whether a group has a member.
    Has(u64, u64, bool),
    /// Checks whether an object exists.
    Stands(Kind, u64, bool),
    /// Checks the next number.
    Next(u64),
    /// Checks that the register is sound.
    Sound,
}

const STAMP: Option<i64> = Some(1000);

/// The first number after the three persons.
const FIRST: u64 = 5;

/// Adds a citizen to the register.
fn enter(alloc: Global, register: &mut Register, party: u64, name: &str) -> Result<(), AllocError> {
    let role = Role::Citizen;
    register.roles.insert(Grant { party, role })?;
    let name = text(alloc, name)?;
    let kind = NaturalPerson;
    register.parties.insert(party, PartyRecord { kind, name })
}

fn enter_all(alloc: Global, register: &mut Register) -> Result<(), AllocError> {
    enter(alloc, register, 2, "Anna")?;
    enter(alloc, register, 3, "Ben")?;
    enter(alloc, register, 4, "Sam")
}

fn is_sound(alloc: Global, register: &Register) -> Result<bool, AllocError>
    ensures { IfOk result (λ sound. sound ≡ true → IsSound register.now) }
{
    match check(alloc, register) {
        Ok(()) => Ok(true),
        Err(Unsound::Memory) => Err(AllocError),
        Err(_) => Ok(false),
    }
}

/// Plans an act on a slice of the register, which is sound.
fn plan_of(
    alloc: Global,
    register: &Register,
    act: &Act,
    stamp: Option<i64>,
) -> Result<Planned, Refusal>
    requires formed { is_well_formed act.now ≡ true }
    requires sound { IsSound register.now }
{
    match slice_of(alloc, register, OFFICE, act) {
        Ok(slice) => plan(alloc, &slice, OFFICE, act, stamp),
        Err(_) => Err(Refusal::NoMemory),
    }
}

fn is_done_line(alloc: Global, it: &Done, line: &str) -> Result<bool, AllocError> {
    let mut told = String::new(alloc);
    write_done(&mut told, it)?;
    Ok(told.as_str() == line)
}

fn is_refused_line(alloc: Global, number: u16, line: &str) -> Result<bool, AllocError> {
    let mut told = String::new(alloc);
    write!(told, "refused {number}")?;
    Ok(told.as_str() == line)
}

/// Applies a change, and returns whether its receipt is this line.
fn is_applied(
    alloc: Global,
    register: &mut Register,
    change: &Change,
    done: &Done,
    line: &str,
) -> Result<bool, AllocError> {
    apply(alloc, register, change)?;
    is_done_line(alloc, done, line)
}

/// Applies the change of an outcome, and returns whether its receipt or refusal is this line.
fn is_outcome(
    alloc: Global,
    register: &mut Register,
    outcome: &Result<Planned, Refusal>,
    line: &str,
) -> Result<bool, AllocError> {
    match outcome {
        Ok(Planned::New(change, done)) => is_applied(alloc, register, change, done, line),
        Ok(Planned::Repeat(done)) => is_done_line(alloc, done, line),
        Err(Refusal::NoMemory) => Err(AllocError),
        Err(refusal) => is_refused_line(alloc, refusal.number(), line),
    }
}

/// Executes an act, and returns whether its receipt or refusal is this line.
fn is_made(
    alloc: Global,
    register: &mut Register,
    act: &Act,
    stamp: Option<i64>,
    line: &str,
) -> Result<bool, AllocError>
    requires formed { is_well_formed act.now ≡ true }
    requires sound { IsSound register.old }
{
    let outcome = plan_of(alloc, register, act, stamp);
    is_outcome(alloc, register, &outcome, line)
}

/// Executes an act if the register is sound and the act well formed, and returns whether its receipt or
/// refusal is this line.
fn is_told(
    alloc: Global,
    register: &mut Register,
    act: &Act,
    stamp: Option<i64>,
    line: &str,
) -> Result<bool, Stop> {
    if !act.is_well_formed() {
        return Ok(line == "not well formed");
    }
    if !is_sound(alloc, register)? {
        return Ok(false);
    }
    Ok(is_made(alloc, register, act, stamp, line)?)
}

/// Executes the act of a row, and returns whether its receipt or refusal is this line.
fn is_done(
    alloc: Global,
    register: &mut Register,
    it: &RowAct,
    stamp: Option<i64>,
    line: &str,
) -> Result<bool, Stop> {
    let act = act(alloc, it)?;
    is_told(alloc, register, &act, stamp, line)
}

/// Takes a step, and returns whether the result is the expected one.
fn is_taken(alloc: Global, register: &mut Register, step: &Step) -> Result<bool, Stop> {
    match step {
        Step::Row(it, stamp, line) => is_done(alloc, register, it, *stamp, line),
        Step::Crowd(count) => crowd(alloc, register, *count),
        Step::Parcels(count) => crowd_parcels(alloc, register, *count),
        Step::Holds(party, role, so) => Ok(register.holds(*party, *role) == *so),
        Step::Has(group, party, so) => Ok(register.is_member(*group, *party) == *so),
        Step::Stands(kind, number, so) => Ok(register.stands(*kind, *number) == *so),
        Step::Next(number) => Ok(register.next == *number),
        Step::Sound => Ok(is_sound(alloc, register)?),
    }
}

/// Sets the next number and takes all steps. The first unexpected result is an error.
fn take_all(alloc: Global, register: &mut Register, next: u64, steps: &[Step]) -> Result<(), Stop> {
    enter_all(alloc, register)?;
    register.next = next;
    for (place, step) in steps.iter().enumerate() {
        expect(is_taken(alloc, register, step)?, "step", place)?;
    }
    Ok(())
}

/// Takes all steps on a register with the citizens Anna, Ben and Sam as parties 2 to 4.
fn take_from_scratch(alloc: Global, next: u64, steps: &[Step]) -> Result<(), Stop> {
    let mut register = Register::new(alloc)?;
    take_all(alloc, &mut register, next, steps)
}

/// Takes all steps on a register of the three persons, and asserts that each result is the expected one.
fn assert_steps(rt: &impl Abort, alloc: Global, next: u64, steps: &[Step]) -> Result<(), Fail> {
    conclude(rt, take_from_scratch(alloc, next, steps))
}
