//! Two files in memory: their content, and disks with that content that stop.
use sqlite::Files;
use sqlite_disk::{Crash, Disk, Fuse, Memory};
use std::alloc::{AllocError, Global};
use testlib_scenario::stop::Stop;

/// A database file and its log, whose disks stop.
pub type Disks = Files<Fuse<Memory>>;

/// The content of the two files.
#[derive(Drop)]
pub struct Image {
    log: Vec<u8>,
    db: Vec<u8>,
}

/// The number of calls after which each disk stops.
#[derive(Clone, Copy)]
pub struct Fuses {
    pub log: u64,
    pub db: u64,
}

/// Neither disk stops.
pub const ENDLESS: Fuses = Fuses {
    log: u64::MAX,
    db: u64::MAX,
};

fn copy(alloc: Global, bytes: &[u8]) -> Result<Vec<u8>, AllocError> {
    let mut copy = Vec::with_capacity(alloc, bytes.len())?;
    copy.extend_from_slice(bytes)?;
    Ok(copy)
}

/// Returns a disk with the given bytes that stops after a number of calls.
fn disk(alloc: Global, bytes: &[u8], calls: u64) -> Result<Fuse<Memory>, Stop> {
    let mut memory = Memory::new(alloc);
    memory.write_at(0, bytes)?;
    memory.sync()?;
    Ok(Fuse::new(memory, calls))
}

impl Image {
    /// Returns empty files.
    pub fn empty(alloc: Global) -> Image {
        Image {
            log: Vec::new(alloc),
            db: Vec::new(alloc),
        }
    }

    /// Returns the current content of files.
    pub fn of(alloc: Global, files: &Disks) -> Result<Image, AllocError> {
        Ok(Image {
            log: copy(alloc, files.log.inner().bytes())?,
            db: copy(alloc, files.db.inner().bytes())?,
        })
    }

    /// Returns files with this content.
    pub fn disks(&self, alloc: Global, fuses: Fuses) -> Result<Disks, Stop> {
        Ok(Files {
            log: disk(alloc, &self.log, fuses.log)?,
            db: disk(alloc, &self.db, fuses.db)?,
        })
    }
}

fn has_stopped(disk: &mut Fuse<Memory>) -> bool {
    !disk.may_be_used() || disk.len().is_err()
}

/// Checks if one of the disks has stopped.
pub fn have_stopped(files: &mut Disks) -> bool {
    has_stopped(&mut files.log) || has_stopped(&mut files.db)
}

/// Drops data that was written and not synced.
pub fn lose_power(files: &mut Disks) {
    files.log.crash();
    files.db.crash();
}
