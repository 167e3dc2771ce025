//! Facts: registers and changes that tests build record by record.

pub mod changes;
pub mod facts;
pub mod lodged;
pub mod making;
pub mod registers;
