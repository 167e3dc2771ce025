//! Changes on files whose disks stop: after none of their calls, after one, after two, until a run is not
//! stopped. If the store fails, the caller gets 502, which closes the connection, and the next request gets
//! 503; otherwise the change gets its own reply. Reopened, the store is accepted as a register, and has the
//! rows from before the change or from after it; from after it, if the change was acknowledged. The files are
//! in memory, and are left as after the death of a process, with everything that was written, and as after a
//! power failure, with only what was synced. The migration of a register from schema version 1 is tested
//! likewise (`migrations`).

mod asking;
pub mod changes;
mod disks;
pub mod migrations;
mod opening;
mod registers;
mod rows;
