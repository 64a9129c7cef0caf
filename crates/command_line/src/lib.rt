//! The command line of the program: its subcommands and their arguments, as tables.
//!
//! [`command_line`] turns the tables into a command for `clap`, which parses the words and writes the help, and
//! [`completion`] into the text by which a shell completes them. The crate does not know what a command does: the program reads the values by
//! the names in the tables.
#![tactic(auto)]

mod argument;
mod completions;
mod shells;
mod subcommands;

pub use completions::{Shell, completion};
pub use subcommands::command_line;
