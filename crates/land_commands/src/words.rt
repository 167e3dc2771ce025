//! Reads the arguments of the command line with `clap`.

pub mod choices;
mod clap_matches;
pub mod command;
mod commands;
pub mod laws;
mod options;
mod parse;
pub mod words_fault;

pub use parse::read_words;
