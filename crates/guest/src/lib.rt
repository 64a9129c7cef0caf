//! The commands of a guest.
//!
//! [`issue`] has a processor make a command, and [`retry`] has a processor that was woken try its load or store again. The command is
//! made in the address space; the processor is then idle, asleep, or in a map call, as userfaultfd(2) describes. Both nodes of a
//! migration call these functions: a node lends its address space and its processors, and says whether it is the node that runs them.
//!
//! The crate owns nothing. It deliberately knows no log, no wire and no transcript: it returns what took effect, and whoever keeps the
//! transcript enters it.
//!
//! Contracts see the space and the processors as the machine's guest (`mig_model`, `specs/Guest.antt`), and a command as the machine's
//! step (there, `specs/GuestSteps.antt`), or else a refusal that changes nothing. The modules follow: `commands` (commands that begin or
//! are tried again), `tried` (their result), and `took` (the outcome of a command, and the processor then).
#![tactic(auto)]

mod commands;
mod took;
mod tried;

pub use crate::commands::{issue, retry};
pub use crate::tried::Tried;
