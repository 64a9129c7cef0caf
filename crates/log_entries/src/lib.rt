//! Which calls the lines of a log show: the events that a checker of runs takes.
//!
//! An [`EntryReader`] takes the lines of a log below its head, one by one, and keeps the events of `kernel_rules` that they are: a call begins
//! where its line says so, under the number of that line, and ends with the answer of its end line, and with the messages and the runs of
//! pages of the lines between. `specs/Events.antt` says which events these are, and the contract of `take` that it keeps no others. An
//! [`EntryStore`] keeps them: a log has an event for nearly each line, so their size is what a judge's memory goes to.
//!
//! What no line says is the caller's choice: which address space a map call changes, whether a close is the last of its object, and whether
//! an object that the recorder found was open before the log began.
#![tactic(auto)]

pub mod entry_reader;
pub mod log_line;
mod settle;
mod shape;
mod slot;
pub mod store;
mod tables;

pub use crate::entry_reader::EntryReader;
pub use crate::log_line::LogLine;
pub use crate::store::EntryStore;
