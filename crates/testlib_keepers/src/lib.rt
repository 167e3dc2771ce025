//! Test cases for the three keepers of the register: in memory, on whole tables, and with indexed queries.
//! Worked rows as bytes (`keepers`), robustness (`hostile`), requests with an allocation failure
//! (`every_growth`), random registers (`random`), allocations of a request (`growths`), the SQL statements of
//! a list (`sights`), extracts (`extracts`) and large sizes (`sizes`). A test case is a public function that
//! returns an error if it fails; `tests_store` has the tests that call them. Only the store of
//! `sights` has contracts, as the store interface requires.
#![tactic(auto)]

mod each;
pub mod every_growth;
pub mod extracts;
pub mod growths;
pub mod hostile;
pub mod keepers;
pub mod random;
mod serving;
pub mod sights;
pub mod sizes;
