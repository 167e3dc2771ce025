//! The command `extract`: writes an extract of the register in a file.
ghost use Rattle.land_commands.specs.Extracting.{ExtractsTables, ExtractsRegister};

use crate::command_error::CommandError;
use crate::file_commands::open_register;
use crate::host::Host;
use land_core::caller::Caller;
use land_core::kind::Kind;
use land_select::sql_keeper::SqlKeeper;
use land_sheet::extracts::extract::extract_to;
use land_sheet::extracts::fault::ExtractFault;
use land_tables::tables::Tables;
use sqlite::Alter;
use std::alloc::Global;
use std::io::Write;

/// The request for an extract.
#[derive(Clone, Copy, Debug)]
pub struct ExtractRequest {
    /// The clock reading, in Unix milliseconds.
    pub clock: i64,
    /// The caller and its role.
    pub caller: Caller,
    /// The kind of the objects.
    pub kind: Kind,
    /// The requested time, in Unix milliseconds; `None`: the time of the clock.
    pub at: Option<i64>,
}

/// Writes the extract of one kind of objects from the register in a file. Does not change the file.
pub fn extract<H: Host, O: Write>(
    host: &mut H,
    file: &str,
    wanted: ExtractRequest,
    output: &mut O,
) -> Result<(), CommandError>
    ensures { ExtractsRegister H.Store.Store (H.holds file.now) wanted
        (O.contents output.old) (O.contents output.new) result }
{
    let tables = open_register(host, file)?;
    let (done, _left) = extract_tables(host.alloc(), tables, wanted, output);
    match done {
        Ok(_written) => Ok(()),
        Err(fault) => Err(CommandError::from(fault)),
    }
}

/// Writes the extract of one kind of objects from tables, and returns the tables.
fn extract_tables<S: Alter, O: Write>(
    alloc: Global,
    tables: Tables<S>,
    wanted: ExtractRequest,
    output: &mut O,
) -> (Result<u64, ExtractFault>, Tables<S>)
    ensures { ExtractsTables S.Store tables wanted result.1
        (O.contents output.old) (O.contents output.new) result.0 }
{
    let ExtractRequest {
        clock,
        caller,
        kind,
        at,
    } = wanted;
    let mut keeper = SqlKeeper::new(tables);
    let done = extract_to(alloc, &mut keeper, clock, caller, kind, at, output);
    (done, keeper.into_tables())
}
