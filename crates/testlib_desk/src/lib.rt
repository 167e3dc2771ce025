//! Test cases for `land_wire_json`, `land_wire`, `land_sheet` and `land_desk`. A test case is a public
//! function that returns an error if it fails; the tests in `tests_http` call them. The crate has no
//! contracts, since it only serves tests.
#![tactic(auto)]

pub mod desk;
pub mod wire;
