//! Verdicts from few records: the standing rules from the evidence, and the sight rules from lookups. A
//! keeper that reads a database uses these instead of a whole register.

pub mod evidence;
pub mod interests;
pub mod laws;
pub mod sight;
pub mod standing;
