//! The commands of the program, on files, streams and a clock that are passed in.
#![tactic(auto)]

pub mod at_once_command;
pub mod command_error;
pub mod digest_command;
pub mod extract_command;
pub mod file_commands;
pub mod fixed_clock;
pub mod host;
pub mod local;
pub mod local_host;
pub mod main_with;
pub mod migrate_command;
pub mod program_fault;
pub mod run;
pub mod words;
