//! Looking for an order of the operations of a history that explains it, or for contradictions.
//!
//! [`propose`] and [`propose_shared`] promise that what they propose names operations that are there, and no more: it is checked by `history`
//! and `history_order`.
//! Between two map calls on its page a location is a register. Where each value is stored there once, the operations that saw one value are
//! together, and those that saw what an exchange put in its place follow them: these `chains` are put into an order by their zones (Gibbons
//! and Korach, Testing shared memories, 1997). Where two of them cannot be, they are a contradiction (`late`, `cycles`). Where values are
//! stored twice, or a map call overlaps an access (`tangles`), an order is looked for step by step (`board`). Each operation gets a place in
//! time, by which those of all locations are sorted (a history is right if it is at each location: Herlihy and Wing, 1990). That is not so where
//! operations of one thread share a tick: if they are not in its order then, all operations are put into one step by step. The time is that of
//! the sorts, and of the steps, whose number is bounded.
#![tactic(auto)]

mod accesses;
mod board;
mod chains;
mod clocks;
mod cycles;
mod late;
mod layout;
mod locations;
mod proposal;
mod tangles;
mod within;

pub use crate::clocks::propose_shared;
pub use crate::locations::Doubt;
pub use crate::proposal::{Proposal, propose};
