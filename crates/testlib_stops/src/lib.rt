//! Test cases with disks that stop at each call (`every_stop`). A test case is a public function that returns
//! why it stops, if it does; the tests that call them are in `tests_store`. Nothing here has a
//! contract, since it is used by tests only.
#![tactic(auto)]

pub mod every_stop;
