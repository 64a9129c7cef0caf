//! Orders that explain a history: whether one that is proposed does.
//!
//! [`confirm_order`] checks an order of all operations of a `history`: that it agrees with the intervals and with each thread, and that in it
//! each reply is that of one flat memory, on which it is replayed. [`entries_of`] is what an operation is in a transcript.
//!
//! The crate searches for nothing, reads no text and prints none.
#![tactic(auto)]

mod confirm;
mod entry;
mod replay;

pub use crate::confirm::confirm_order;
pub use crate::entry::entries_of;
