//! Members of groups, with their shares (LA_PartyMember).

pub mod change_writing;
pub mod reading;
pub mod writing;
