//! The schedules of a small world, all of them.
//!
//! A [`Small`] world has few pages, processors, breaks, rounds and commands. A [`Turn`] is a step that its schedules choose from.
//! [`walk_schedules`] finds every world that some schedule leads to, each once, with a shortest schedule. `specs/Turns.antt` says which steps
//! a schedule may choose, and `specs/Walks.antt` what is found.
//!
//! The modules: `turn` (when a step may be chosen), `small` (the turns of a small world), `worlds` (where a turn leads), `walk` (the walk).
#![tactic(auto)]

mod small;
mod turn;
mod walk;
mod worlds;

pub use crate::small::Small;
pub use crate::turn::{Turn, is_open};
pub use crate::walk::{WalkFault, Walked, walk_schedules};
