//! Worked rows as bytes, for the two keepers of tables and the one in memory: the scenario with additional
//! requests, and its alternatives.
use crate::keepers::keepers::play_over_each;
use crate::keepers::looks::{FIRST_LOOKS, LAST_LOOKS};
use crate::keepers::parcels::PARCELS;
use crate::keepers::requests::{BODIES, CALLERS, ROUTES, SHARES_AND_OUTLINES, TARGETS};
use crate::keepers::story::Story;
use crate::keepers::streams::{cut_in_a_body, heads_at_their_limit};
use crate::keepers::turns::{EARLY, ROLES, SHOWN, TRANSFERS};
use std::alloc::{AllocError, Global};
use testlib_scenario::mandates::MANDATES;
use testlib_scenario::scenario::STEPS;
use testlib_scenario::stop::Stop;
use testlib_scenario::talk::Transcript;

/// Requests to a new register.
const REQUESTS: &[Story] = &[
    Story("routes", 0, &[], ROUTES),
    Story("targets", 0, &[], TARGETS),
    Story("callers", 0, &[], CALLERS),
];

/// Bodies of acts on a new register.
const ACTS: &[Story] = &[
    Story("bodies", 0, &[], BODIES),
    Story("shares and outlines", 0, &[], SHARES_AND_OUTLINES),
];

/// Mandates, with a mortgage on the garden.
const AGENTS: &[Story] = &[Story("mandates", 12, &[], MANDATES)];

/// Returns the conversation of a story, after its steps of the scenario.
fn talk_of(alloc: Global, story: &Story) -> Result<Transcript, AllocError> {
    let mut talk = Transcript::new(alloc)?;
    for (place, step) in STEPS.iter().enumerate() {
        if place < story.1 {
            talk.ask("the scenario", place, step)?;
        }
    }
    talk.ask_all(story.0, story.3)?;
    Ok(talk)
}

fn has_expected_reply(alloc: Global, story: &Story) -> Result<(), Stop> {
    let talk = talk_of(alloc, story)?;
    play_over_each(alloc, story.2, &talk)
}

/// Plays stories with each keeper, each on a new register.
fn expect_replies(alloc: Global, stories: &[Story]) -> Result<(), Stop> {
    for story in stories {
        has_expected_reply(alloc, story)?;
    }
    Ok(())
}

/// Tests that a request gets its first fault.
pub fn requests_get_their_first_fault(alloc: Global) -> Result<(), Stop> {
    expect_replies(alloc, REQUESTS)
}

/// Tests that a body gets its first fault.
pub fn bodies_get_their_first_fault(alloc: Global) -> Result<(), Stop> {
    expect_replies(alloc, ACTS)
}

/// Tests the early alternatives.
pub fn the_register_takes_early_turns(alloc: Global) -> Result<(), Stop> {
    expect_replies(alloc, EARLY)
}

/// Tests that holders and members see what they hold.
pub fn holders_and_members_are_shown_what_they_hold(alloc: Global) -> Result<(), Stop> {
    expect_replies(alloc, SHOWN)
}

/// Tests transfers of rights.
pub fn rights_are_transferred(alloc: Global) -> Result<(), Stop> {
    expect_replies(alloc, TRANSFERS)
}

/// Tests roles and banks that start and end.
pub fn roles_and_banks_come_and_go(alloc: Global) -> Result<(), Stop> {
    expect_replies(alloc, ROLES)
}

/// Tests mandates that are given and withdrawn.
pub fn mandates_are_given_and_withdrawn(alloc: Global) -> Result<(), Stop> {
    expect_replies(alloc, AGENTS)
}

/// Tests parcels that are subdivided and merged.
pub fn parcels_are_cut_and_merged(alloc: Global) -> Result<(), Stop> {
    expect_replies(alloc, PARCELS)
}

fn ask_beside(talk: &mut Transcript, looks: &[Story], steps: usize) -> Result<(), AllocError> {
    for look in looks {
        if look.1 == steps {
            talk.ask_all(look.0, look.3)?;
        }
    }
    Ok(())
}

/// Returns the conversation of the whole scenario, with the additional requests after each step.
fn talk_beside(alloc: Global, looks: &[Story]) -> Result<Transcript, AllocError> {
    let mut talk = Transcript::new(alloc)?;
    for (place, step) in STEPS.iter().enumerate() {
        ask_beside(&mut talk, looks, place)?;
        talk.ask("the scenario", place, step)?;
    }
    ask_beside(&mut talk, looks, STEPS.len())?;
    Ok(talk)
}

fn expect_replies_after(alloc: Global, looks: &[Story]) -> Result<(), Stop> {
    let talk = talk_beside(alloc, looks)?;
    play_over_each(alloc, &[], &talk)
}

/// Tests the scenario with additional requests after its first steps.
pub fn the_scenario_with_other_requests_after_its_first_steps(alloc: Global) -> Result<(), Stop> {
    expect_replies_after(alloc, FIRST_LOOKS)
}

/// Tests the scenario with additional requests after its last steps.
pub fn the_scenario_with_other_requests_after_its_last_steps(alloc: Global) -> Result<(), Stop> {
    expect_replies_after(alloc, LAST_LOOKS)
}

/// Tests a stream that ends within its second request, and heads at the size limit.
pub fn streams_end_where_they_are_cut(alloc: Global) -> Result<(), Stop> {
    play_over_each(alloc, &[], &cut_in_a_body(alloc)?)?;
    play_over_each(alloc, &[], &heads_at_their_limit(alloc)?)
}
