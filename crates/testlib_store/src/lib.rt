//! Test cases on stores: tables row by row (`rows`), decoded rows (`versions`), queries (`joins`), commands
//! on files (`commands`), and the command that serves connections (`town`). A test case is a public function
//! that returns an error if it fails; the tests that call them are in `tests_store`. Nothing here has
//! a contract, because it is only for tests.
#![tactic(auto)]

pub mod commands;
pub mod joins;
pub mod rows;
pub mod town;
pub mod versions;
