//! The commands of the program, with their options.

use land_core::caller::Caller;
use land_core::kind::Kind;

/// A command with its options. File names are borrowed from the arguments.
#[derive(Clone, Copy, Debug, PartialEq, Eq)]
pub enum Command<'a> {
    /// `talk`: answers standard input on a new register in memory.
    Talk {
        /// The reading of the clock, in Unix milliseconds.
        clock: i64,
    },
    /// `new`: creates a register in a file.
    New {
        /// The file's name.
        file: &'a str,
    },
    /// `serve`: answers connections on the register in a file.
    Serve {
        /// The file's name.
        file: &'a str,
        /// The port of 127.0.0.1 to listen on, 1 to 65535.
        port: u16,
        /// The number of connections to serve, 1 to 1000000.
        connections: u32,
        /// The maximum number of connections that are open at the same time, 1 to 1024. 1: one after another.
        at_once: u16,
    },
    /// `check`: checks that a file holds a sound register.
    Check {
        /// The file's name.
        file: &'a str,
    },
    /// `migrate`: upgrades the register in a file from schema version 1 to 2.
    Migrate {
        /// The file's name.
        file: &'a str,
    },
    /// `extract`: prints, as CSV, the objects of one kind that a caller sees in the register in a file.
    Extract {
        /// The file's name.
        file: &'a str,
        /// The reading of the clock, in Unix milliseconds.
        clock: i64,
        /// The caller and its role.
        caller: Caller,
        /// The kind of the objects.
        kind: Kind,
        /// The requested time, in Unix milliseconds; `None`: the time of the clock.
        at: Option<i64>,
    },
    /// `digest`: prints the digest of the history in the register in a file.
    Digest {
        /// The file's name.
        file: &'a str,
        /// The time up to which the history counts, in Unix milliseconds; `None`: all of it.
        at: Option<i64>,
    },
}
