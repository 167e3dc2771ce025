//! The queries for a list, or for the view of a party.
use crate::conclusion::conclude;
use std::test::Fail;
use testlib_keepers::sights::{parties_are_seen, texts_are_run};

#[test]
fn lists_run_their_statements(rt: HostRuntime) -> Result<(), Fail> {
    conclude(&rt, texts_are_run::lists_run_their_statements(rt.alloc()))
}

#[test]
fn parties_are_visible_to_their_viewers(rt: HostRuntime) -> Result<(), Fail> {
    conclude(
        &rt,
        parties_are_seen::parties_are_visible_to_their_viewers(rt.alloc()),
    )
}
