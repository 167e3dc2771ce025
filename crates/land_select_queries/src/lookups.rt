//! Lookups: parts of the register at a time, read from the tables by the number of an object.

pub mod by_number;
pub mod column_lookup;
pub mod existence;
pub mod lodgers;
pub mod numbered;
pub mod numbers;
pub mod object_record;
pub mod objects;
pub mod of_agent;
pub mod of_entries;
pub mod of_group;
pub mod of_lodger;
pub mod of_party;
pub mod of_unit;
pub mod office;
pub mod record_lookup;
pub mod record_rows;
pub mod relation;
pub mod texts;
pub mod viewers_of_party;
pub mod within;
