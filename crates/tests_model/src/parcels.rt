//! Parcels that are cut into parts and merged again, with their units and entries.

use testlib_cases::asked::OFFICE;
use testlib_cases::asked::RowAct::{Approve, Lodge};
use testlib_cases::asked::RowAsk::{self, Do};
use testlib_cases::lodged::RowContent::Subdivision;
use testlib_cases::lodged::{RowParcel, RowPart};
use testlib_cases::rows::Row;
use testlib_cases::steps::SURVEYOR;

mod merged;
mod refused;
mod repeated;
mod subdivided;

const WHOLE: &str = "POLYGON ((0 0, 10000 0, 10000 10000, 0 10000, 0 0))";

const LEFT: &str = "POLYGON ((0 0, 5000 0, 5000 10000, 0 10000, 0 0))";

const RIGHT: &str = "POLYGON ((5000 0, 10000 0, 10000 10000, 5000 10000, 5000 0))";

const FIRST: RowParcel = RowParcel("12a", LEFT);

/// The right half of the garden becomes an orchard.
const ORCHARD: RowAsk = Do(Lodge(
    "S1",
    "Plan 1",
    Subdivision(9, 10, FIRST, &[RowPart("12b", RIGHT, Some("Orchard"))]),
));

const ORCHARD_LODGED: Row = Row(1000, SURVEYOR, ORCHARD, "done 23 made [22, 23] at 1016");

const ORCHARD_APPROVED: Row = Row(
    1000,
    OFFICE,
    Do(Approve(23)),
    "done 23 made [24, 25, 26, 27, 28, 29] at 1017",
);
