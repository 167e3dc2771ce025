//! Tests of `land_tables_rows` and `land_tables_history`: the definitions of decoded rows, of the register at
//! a moment and of valid histories agree with docs/TABLES.md, and the functions succeed. SQLite in memory
//! returns the rows, with any cells that a test requests.

mod cell;
pub mod contents;
mod field;
mod histories;
pub mod lifespans;
pub mod representations;
mod sample;
mod table;
pub mod valid_history;
pub mod words;
pub mod wrong_values;
