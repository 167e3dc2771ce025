//! Reads the numbers of a kind that a caller sees.

use crate::query::Query;
use land_core::caller::Caller;
use land_core::kind::Kind;
use land_core::sequence::NumberList;
use land_select_queries::joins::sight::sight_and_mandates;
use land_tables_rows::listing::fault::ReadFault;
use sqlite::{Alter, Connection};
use std::alloc::Global;

/// The query for the numbers of a kind that a caller sees at a time. Also finds if the caller holds no
/// mandate.
#[derive(Clone, Copy, Debug)]
pub(crate) struct SightQuery {
    /// The caller.
    pub(crate) caller: Caller,
    /// Whether the caller is known to hold no mandate.
    pub(crate) holds_none: bool,
    /// The kind.
    pub(crate) kind: Kind,
    /// The time, in Unix milliseconds.
    pub(crate) moment: i64,
}

impl Query<(NumberList, bool)> for SightQuery {
    ghost use Rattle.land_select_queries.specs.Joins.Sight.{IsSightWith};

    ghost results = { λ it db told. IsSightWith it.caller it.holds_none it.kind it.moment db told };

    fn run<S: Alter>(
        &self,
        alloc: Global,
        conn: &mut Connection<S>,
    ) -> Result<(NumberList, bool), ReadFault> {
        sight_and_mandates(
            alloc,
            conn,
            self.caller,
            self.holds_none,
            self.kind,
            self.moment,
        )
    }
}
