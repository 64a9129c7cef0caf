//! The rules by which real kernels answer calls on userfault objects, over any address space, with several objects and any features.
//!
//! The model of this repository (`mig_model`) is one object, and fixes what manual pages leave open. A log of a real program is judged by
//! these rules instead: they are driven by the answers of the log, and name each step that the model would not take (docs/LINUX.md).
//! `specs/State.antt` says what a kernel has, `specs/Faults.antt` what threads do that a log does not show, `specs/Ioctls.antt` and
//! `specs/MapCalls.antt` what each call may answer and does, `specs/Reads.antt` the same of read(2) and poll(2), and `specs/Runs.antt`
//! what a run of a log is.
#![tactic(auto)]

pub mod answers;
pub mod arguments;
pub mod calling;
pub mod certify;
pub mod change;
mod closes;
pub mod difference;
pub mod fault;
pub mod filling;
mod installs;
mod ioctls;
pub mod kernel;
pub mod kernel_table;
pub mod known;
mod map_calls;
mod moves;
mod moving;
pub mod object;
pub mod page_table;
pub mod page_test;
mod protects;
mod reads;
pub mod run;
mod scans;
mod takes;
mod telling;

pub use crate::change::Change;
pub use crate::difference::Difference;
pub use crate::fault::{Fault, Reach};
pub use crate::kernel::Kernel;
pub use crate::kernel_table::KernelTable;
pub use crate::known::{Page, Phase, Presence};
pub use crate::object::{Object, Registration};
pub use crate::page_table::PageTable;
pub use crate::page_test::PageTest;
pub use crate::run::{Ending, Entry, Made, Move, Run};
