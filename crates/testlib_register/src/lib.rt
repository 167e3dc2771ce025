//! Test cases for registers: whole registers (`records`) and the policy on them (`policy`), built from facts
//! (`facts`). A test case is a public function that returns an error if it fails; the tests that call them
//! are in `tests_model`. Only for tests: nothing here has a contract.
#![tactic(auto)]

pub mod facts;
pub mod policy;
pub mod records;
