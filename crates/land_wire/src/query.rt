//! Reads the queries of request targets.
ghost use Rattle.std.specs.Prelude.{◌≡◌};
ghost use Rattle.land_wire.specs.Queries.{at_in, no_query, moment_parameter};

use crate::numbers::read_moment;
use land_wire_json::bodies::wire_fault::WireFault;
use land_wire_json::bodies::words::is_word;

/// Reads the requested time, in Unix milliseconds: `None` without a query, otherwise the moment after `at=`.
///
/// Errors: 131 if the query does not begin with `at=`; 132 if the rest is not a moment.
pub fn read_at(query: &[u8]) -> Result<Option<i64>, WireFault>
    ensures { result ≡ at_in query.now }
{
    if query.is_empty() {
        Ok(None)
    } else {
        moment_parameter(query)
    }
}

fn moment_parameter(query: &[u8]) -> Result<Option<i64>, WireFault>
    ensures { result ≡ moment_parameter query.now }
{
    let (start, moment) = query.split_at(query.len().min(3));
    if is_word(start, "at=") {
        Ok(Some(read_moment(moment)?))
    } else {
        Err(WireFault::Field)
    }
}

/// Checks that an act has no query. Errors: 131 if it has one.
pub fn check_no_query(query: &[u8]) -> Result<(), WireFault>
    ensures { result ≡ no_query query.now }
{
    if query.is_empty() {
        Ok(())
    } else {
        Err(WireFault::Field)
    }
}
