//! The sources of mutations.
use crate::slices::gathers::Gathers;
use crate::slices::parties_and_roles::put_one;
use land_core::records::Records;
use land_core::source::SourceRecord;
use land_select_queries::lookups::by_number;
use land_tables_rows::listing::fault::ReadFault;
use sqlite::{Alter, Connection};
use std::alloc::Global;

impl Gathers for Records<SourceRecord> {
    ghost use Rattle.std.specs.Prelude.{◌≡◌};
    ghost use Rattle.land_core.specs.Entries.{entries_where};

    ghost knows = { λ r asked it. it ≡ entries_where (λ n s. asked n) r.sources };

    fn gather<S: Alter>(
        self,
        alloc: Global,
        conn: &mut Connection<S>,
        number: u64,
        at: i64,
    ) -> Result<Records<SourceRecord>, ReadFault> {
        let source = by_number::record(alloc, conn, number, at)?;
        Ok(put_one(self, number, source)?)
    }
}
