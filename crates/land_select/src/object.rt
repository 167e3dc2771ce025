//! Reads an object by key.
ghost use Rattle.std.specs.Prelude.{◌≡◌};

use crate::query::Query;
use land_core::kind::Kind;
use land_core::object::Object;
use land_select_queries::lookups::objects::object;
use land_tables_rows::listing::fault::ReadFault;
use sqlite::{Alter, Connection};
use std::alloc::Global;

/// The query for an object at a time.
#[derive(Clone, Copy, Debug)]
pub(crate) struct ObjectQuery {
    /// The kind of the object.
    pub(crate) kind: Kind,
    /// The number of the object.
    pub(crate) number: u64,
    /// The time, in Unix milliseconds.
    pub(crate) moment: i64,
}

impl Query<Option<Object>> for ObjectQuery {
    ghost use Rattle.land_core.specs.Register.{object_at};
    ghost use Rattle.land_select_queries.specs.Lookups.Parts.{ReadsPart};

    ghost results = { λ it db found. ReadsPart (λ r. object_at r it.kind it.number) it.moment db found };

    fn run<S: Alter>(
        &self,
        alloc: Global,
        conn: &mut Connection<S>,
    ) -> Result<Option<Object>, ReadFault> {
        object(alloc, conn, self.kind, self.number, self.moment)
    }
}
