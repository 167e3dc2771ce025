//! Authorizes a request: the verdict, and the object or the entries that it read.
ghost use Rattle.land_select.specs.Cache.{IsSightVerdictWith};
ghost use Rattle.land_select.specs.Verdicts.{IsVerdictWith};
ghost use Rattle.land_select_queries.specs.TableReads.{ReadsTables};
ghost use Rattle.land_tables_schema.specs.Connections.{HasRegisterTables, IsUsable, LeavesAutocommit};

use crate::cache::CachedValue;
use crate::query::Query;
use crate::verdict::caller::{is_read, read_standing_verdict};
use crate::verdict::sheet::read_sheet_verdict;
use crate::verdict::view::read_view_verdict;
use land_core::ask::Ask;
use land_core::caller::Caller;
use land_core::limits::LAST_MOMENT;
use land_rules::verdict::Verdict;
use land_tables_rows::listing::fault::ReadFault;
use sqlite::{Alter, Connection};
use std::alloc::Global;

/// Returns the verdict of the sight rules on a request by the register at a time, and the value that it read.
fn read_sight_verdict<S: Alter>(
    alloc: Global,
    conn: &mut Connection<S>,
    caller: Caller,
    ask: &Ask,
    at: i64,
) -> Result<(Verdict, CachedValue), ReadFault>
    requires open { IsUsable S.Store conn.old }
    requires has_tables { HasRegisterTables S.Store conn.old }
    ensures reads_only { ReadsTables S.Store result (IsSightVerdictWith caller ask.now at) conn.old conn.new }
    ensures autocommit { LeavesAutocommit conn.old conn.new }
{
    match ask {
        Ask::View { kind, number, .. } => read_view_verdict(
            alloc, conn, caller, *kind, *number, at,
        ),
        Ask::Sheet { unit, .. } => read_sheet_verdict(alloc, conn, caller, *unit, at),
        Ask::List { .. } | Ask::Do(_) => Ok((Verdict::Allowed, CachedValue::Nothing)),
    }
}

/// Returns the verdict on a request at a time, and the value that it read: the object or the entries, or the
/// mutation that the request decides. The standing rules use the register at the last moment. `is_held`
/// states that the caller is known to hold the role that it claims.
fn read_verdict<S: Alter>(
    alloc: Global,
    conn: &mut Connection<S>,
    caller: Caller,
    is_held: bool,
    ask: &Ask,
    past: bool,
    at: i64,
) -> Result<(Verdict, CachedValue), ReadFault>
    requires open { IsUsable S.Store conn.old }
    requires has_tables { HasRegisterTables S.Store conn.old }
    ensures reads_only { ReadsTables S.Store result (IsVerdictWith caller is_held ask.now past at) conn.old
        conn.new }
    ensures autocommit { LeavesAutocommit conn.old conn.new }
{
    let told = read_standing_verdict(alloc, conn, caller, is_held, ask, past, LAST_MOMENT)?;
    let (first, decided) = told;
    match first {
        Verdict::Allowed => {
            if is_read(ask) {
                return read_sight_verdict(alloc, conn, caller, ask, at);
            }
            Ok((Verdict::Allowed, decided))
        }
        Verdict::Denied(rule) => Ok((Verdict::Denied(rule), decided)),
    }
}

/// The query for the verdict on a request.
#[derive(Clone, Copy, Debug)]
pub(crate) struct VerdictQuery<'a> {
    /// The caller.
    pub(crate) caller: Caller,
    /// Whether the caller is known to hold the role that it claims.
    pub(crate) is_held: bool,
    /// The request.
    pub(crate) ask: &'a Ask,
    /// Whether the time is before now.
    pub(crate) past: bool,
    /// The time, in Unix milliseconds.
    pub(crate) moment: i64,
}

impl Query<(Verdict, CachedValue)> for VerdictQuery<'_> {
    ghost use Rattle.land_select.specs.Verdicts.{IsVerdictWith};

    ghost results = { λ it db told. IsVerdictWith it.caller it.is_held it.ask.now it.past it.moment db
        told };

    fn run<S: Alter>(
        &self,
        alloc: Global,
        conn: &mut Connection<S>,
    ) -> Result<(Verdict, CachedValue), ReadFault> {
        read_verdict(
            alloc,
            conn,
            self.caller,
            self.is_held,
            self.ask,
            self.past,
            self.moment,
        )
    }
}
