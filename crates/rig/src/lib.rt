//! The world of a migration under one lock, with processors and workers in threads of their own.
//!
//! A [`Rig`] owns a world. Each time that one of its calls takes the lock, it makes at most one step of the world. A [`CpuSeat`] is the
//! right to make commands as one processor: [`Rig::call`] makes one and returns its reply, and the seat keeps the answer. The workers make
//! the steps of the two nodes, in turn, as a [`Gate`] lets them. Those that send the owed pages divide them by claims
//! ([`Rig::claims`]), which are outside the lock. The rig chooses no schedule: the threads and the gate do.
//!
//! Nothing is known of a value under a lock but its type. So [`Rig::close`] tests the answers of the seats against the transcript of the
//! world that it returns: each processor's entries are those that it had when the rig was made, and then the answers of its seat.
//! No contract says that a thread runs, wakes or ends.
//!
//! The modules: `gate` (what decides the turns of the workers), `turns` and `sending` (their loops, over anything that has turns), `seat`
//! (the answers of a processor), `section` (what is done while the lock is held), `remaining` (the pages of
//! claims), `check` (the test of the seats), `rig` (the type that callers share), `locked` (the turns under its lock).
#![tactic(auto)]

mod check;
mod gate;
mod locked;
mod remaining;
mod rig;
mod seat;
mod section;
mod sending;
mod turns;

pub use crate::gate::{Gate, Pass, StepKind, Worker};
pub use crate::rig::{CloseFault, Rig};
pub use crate::seat::{Answer, CpuSeat};
pub use crate::sending::{push_turns, serve_turns};
pub use crate::turns::{Leave, Turns, dest_turns, says_stale, source_turns, ticket_due};
