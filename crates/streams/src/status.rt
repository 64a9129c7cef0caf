//! The exit statuses of a command.

/// All that was asked for was done.
pub const ALL_DONE: u8 = 0;

/// The command line or a line of the input is wrong.
pub const BAD_COMMAND_OR_SCRIPT: u8 = 1;

/// A read or a write failed.
pub const READ_OR_WRITE_FAULT: u8 = 2;

/// An answer differs, or a transcript is that of no run.
pub const NO_FLAT_RUN: u8 = 3;

/// An allocation failed.
pub const NO_MEMORY: u8 = 4;

/// An input could not be decided.
pub const UNDECIDED: u8 = 5;

/// Nothing was looked at: the input has nothing that the command judges, compares or shows.
pub const NOTHING_TO_JUDGE: u8 = 6;
