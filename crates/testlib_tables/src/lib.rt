//! Test cases of the register in tables: creating, writing, reading and migrating (`tables`), and stores that
//! are accepted or refused (`damage`). A test case is a public function that returns why it stops, if it
//! does; the tests that call them are in `tests_store`. Nothing here has a contract, since it is used
//! by tests only.
#![tactic(auto)]

pub mod cases;
pub mod damage;
pub mod tables;
