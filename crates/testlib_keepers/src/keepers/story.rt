//! Stories: rows that follow some steps of the scenario.
use testlib_scenario::talk::Row;

/// Rows after the given number of steps: their name, the number of steps, the rows, and the clock readings if
/// they are not 1000.
pub struct Story(
    pub &'static str,
    pub usize,
    pub &'static [i64],
    pub &'static [Row],
);
