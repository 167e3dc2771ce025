//! Mutations: lodged and repeated, approved or refused, and seen by role and time.

use testlib_cases::asked::OFFICE;
use testlib_cases::asked::RowAct::Approve;
use testlib_cases::asked::RowAsk::Do;
use testlib_cases::rows::Row;
use testlib_cases::steps::{NORA, QUARTER};

mod banks;
mod conveyancer;
mod refused;
mod repeats;
mod scenario;
mod shares;

/// The quarter is lodged after the mortgage.
const QUARTER_LODGED: Row = Row(1000, NORA, QUARTER, "done 18 made [17, 18] at 1012");

const QUARTER_APPROVED: Row = Row(1000, OFFICE, Do(Approve(18)), "done 18 made [] at 1013");

const UNIT: &str = "unit 9 Garden true";
