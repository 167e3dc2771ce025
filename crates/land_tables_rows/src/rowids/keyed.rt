//! Tables that are keyed by rowids.
ghost use Rattle.land_tables_rows.specs.Effects.{ReadsTables};
ghost use Rattle.land_tables_rows.specs.Rowids.{AreRowids};
ghost use Rattle.land_tables_schema.specs.Connections.{LeavesAutocommit};
ghost use Rattle.sqlite.specs.Held.{state};
ghost use Rattle.sqlite.specs.State.{HasCleanDisk};

use crate::listing::listed::Listed;
use sqlite::{Alter, Connection, Error, Row};

/// A record that has versions in a table, each under a rowid.
pub(crate) trait Keyed: Listed {
    /// Reads the rowids of the table, in unspecified order.
    fn rowids<S: Alter>(conn: &mut Connection<S>) -> Result<Vec<Row>, Error>
        requires { HasCleanDisk (state S.Store conn.old) → Self.has (state S.Store conn.old).now.schema }
        ensures reads_only { ReadsTables S.Store result
            (λ db rows. AreRowids Self.listing.table db rows.items) conn.old conn.new }
        ensures autocommit { LeavesAutocommit conn.old conn.new };
}
