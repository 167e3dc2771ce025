//! Serves connections one at a time.
ghost use Rattle.std.specs.Prelude.{◌≡◌, false};
ghost use Rattle.land_desk.specs.Service.{ServesNextConnection, ServesConnections, ReportsClosed};
ghost use Rattle.land_keep.specs.Keepers.{Represents, WasHonest, state_of};

use crate::serve::serve;
use crate::service::connections::Connections;
use land_keep::clock::Clock;
use land_keep::keeper::Keeper;
use std::alloc::Global;

/// Why the service ended early.
#[derive(Clone, Copy, Debug, PartialEq, Eq)]
pub enum ServiceFault {
    /// 502: a store operation failed, and the keeper is closed.
    Closed,
    /// Accepting the next connection failed.
    Accept,
}

/// Serves this number of connections, one at a time.
///
/// A connection that is dropped ends only itself. Once a store operation has failed, no other connection is
/// served, and the error is `Closed`. If accepting fails, the error is `Accept`.
pub fn serve_connections<L: Connections, K: Keeper, C: Clock>(
    alloc: Global,
    listener: &mut L,
    connections: u32,
    keeper: &mut K,
    clock: &mut C,
) -> Result<(), ServiceFault>
    ensures closed { ReportsClosed result (K.closed keeper.new) }
    ensures served { K.honest keeper.new → ServesConnections C.reads connections
        (state_of K.Keeper keeper.old clock.old) (Represents K.Keeper keeper.new clock.new)
        (L.coming listener.old) (L.coming listener.new) result }
    ensures was { WasHonest K.Keeper keeper.old keeper.new }
{
    if keeper.is_closed() {
        return Err(ServiceFault::Closed);
    }
    for _served in 0..connections {
        match serve_next(alloc, listener, keeper, clock) {
            Ok(()) => {}
            Err(fault) => return Err(fault),
        }
    }
    Ok(())
}

/// Serves the next connection. The keeper is open.
fn serve_next<L: Connections, K: Keeper, C: Clock>(
    alloc: Global,
    listener: &mut L,
    keeper: &mut K,
    clock: &mut C,
) -> Result<(), ServiceFault>
    requires { K.closed keeper.old ≡ false }
    ensures closed { ReportsClosed result (K.closed keeper.new) }
    ensures served { K.honest keeper.new → ServesNextConnection C.reads
        (state_of K.Keeper keeper.old clock.old) (Represents K.Keeper keeper.new clock.new)
        (L.coming listener.old) (L.coming listener.new) result }
    ensures was { WasHonest K.Keeper keeper.old keeper.new }
{
    let Ok((mut reader, mut writer)) = listener.accept_connection() else {
        return Err(ServiceFault::Accept);
    };
    match serve(alloc, &mut reader, &mut writer, keeper, clock) {
        Ok(_) => L::close_connection(&mut reader, &mut writer),
        Err(_) => {}
    }
    if keeper.is_closed() {
        return Err(ServiceFault::Closed);
    }
    Ok(())
}
