//! The command `serve`, of several connections at the same time.
ghost use Rattle.land_commands.specs.Filed.{ServesFileAtOnce, ServesTablesAtOnce};

use crate::file_commands::{close, open_register};
use crate::host::Host;
use crate::program_fault::ProgramFault;
use land_keep::clock::Clock;
use land_pool::connection_source::ConnectionSource;
use land_pool::pool::{PoolFault, serve_at_once};
use land_select::sql_keeper::SqlKeeper;
use land_tables::tables::Tables;
use sqlite::Alter;
use std::alloc::Global;

/// Serves the first `connections` connections to a port, at most `at_once` of them at the same time, on the
/// register in a file.
pub fn serve_file_at_once<H: Host, C: Clock>(
    host: &mut H,
    file: &str,
    port: u16,
    connections: u32,
    at_once: u16,
    clock: &mut C,
) -> Result<(), ProgramFault>
    ensures { ServesFileAtOnce H.Store.Store (H.holds file.now) H.is_closed (record {
      reads = C.reads;
      wanted = connections;
      coming = H.coming host.old port;
      after = H.coming host.new port;
      clock = clock.old;
      clock_after = clock.new;
    }) (record { old = H.ended host.old port; new = H.ended host.new port }) result }
{
    let tables = open_register(host, file)?;
    let Ok(mut source) = host.listen_at_once(port) else {
        return Err(ProgramFault::Listen);
    };
    let (served, tables) = serve_tables_at_once(
        host.alloc(),
        tables,
        &mut source,
        connections,
        at_once,
        clock,
    );
    host.stop_listening_at_once(port, source);
    match served {
        Ok(()) => close::<H>(tables.into_connection()),
        Err(fault) => Err(ProgramFault::from(fault)),
    }
}

/// Serves the first `connections` connections of a source on tables, at most `at_once` of them at the same
/// time, and returns the tables.
fn serve_tables_at_once<S: Alter, L: ConnectionSource, C: Clock>(
    alloc: Global,
    tables: Tables<S>,
    source: &mut L,
    connections: u32,
    at_once: u16,
    clock: &mut C,
) -> (Result<(), PoolFault>, Tables<S>)
    ensures { ServesTablesAtOnce S.Store C.reads connections (L.coming source.old) (L.coming source.new)
        (record { old = L.ended source.old; new = L.ended source.new })
        tables clock.old result.1 clock.new result.0 }
{
    let mut keeper = SqlKeeper::new(tables);
    let limit = usize::from(at_once);
    let served = serve_at_once(alloc, source, connections, limit, &mut keeper, clock);
    (served, keeper.into_tables())
}
