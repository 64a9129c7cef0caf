//! Judging a file with the history of a memory: whether it is that of one flat memory.
//!
//! [`judge_history`] reads a history and writes the verdict. The verdict is that of [`decide`], which has an order or contradictions proposed
//! by `history_search`, and rests on what `history` and `history_order` confirm. [`write_transcript`] writes the operations in the order that
//! was found, and [`write_picture`] a picture of a contradiction. `docs/HISTORY.md` has the lines of a history.
//!
//! The crate names no file, no command line and no exit status: readers and writers are its callers'.
#![tactic(auto)]

mod account;
mod decision;
mod judge;
mod line;
mod reading;

pub use crate::account::write_picture;
pub use crate::decision::{Decision, decide};
pub use crate::judge::{HistoryFault, Judged, Verdict, judge_history, write_transcript};
