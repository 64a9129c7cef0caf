//! Histories of one memory that several threads use at once: when is a history that of one flat memory, and when is it not?
//!
//! An [`Operation`] has the interval in which it took effect. `specs/Histories.antt` says when an order of all operations explains a history,
//! over the flat memory of `mig_base`, and `specs/Contradictions.antt` why there may be none: [`refutes`] checks a [`Contradiction`].
//! [`agrees`] and [`gave_ticks`] check what an order and a clock must meet, [`is_made_before`] and [`is_turned`] two operations and one.
//!
//! The crate searches for nothing: what it checks is proposed by its caller. It reads no text and prints none.
#![tactic(auto)]

mod agreement;
mod before;
mod contradiction;
mod cycle;
mod operation;
mod place;
mod reader;
mod ticks;

pub use crate::agreement::agrees;
pub use crate::before::is_made_before;
pub use crate::contradiction::{Contradiction, is_turned, refutes};
pub use crate::cycle::Value;
pub use crate::operation::{Action, Clock, NEVER, Operation};
pub use crate::ticks::gave_ticks;
