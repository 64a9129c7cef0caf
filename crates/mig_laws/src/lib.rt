//! Laws that follow from the machine of `mig_model`, for nodes in processes of their own (`nodes`, `slice_laws`).
//!
//! Contents do not matter. A map of bytes that keeps 0 acts on all that has contents: `specs/Contents.antt` says how on pages, numbers,
//! commands, spaces and guests, `specs/Worlds.antt` on nodes, frames, worlds, steps and answers, and `specs/Nodes.antt` on what a step of
//! a node gives. `specs/Runs.antt` has what two runs that differ in contents alone decide alike.
//!
//! Two nodes are a world. `specs/Sides.antt` says what a node gives by itself and what is in its log, and `specs/Orders.antt` in which
//! orders the lines of two logs may have happened. `specs/Processes.antt` has two processes, each of which learns by itself that its channel
//! is lost; `specs/Replacements.antt` lets another destination take the place of one that has not run. `specs/Example.antt` has an order, and
//! what happens to two processes with the same logs.
//!
//! Two drivers are a world. `specs/Drivers.antt` has two drivers whose nodes hold no byte, and what each does with the bytes of its guest.
//!
//! `specs/Claims.antt` names the runs of which the laws speak, and what they say of them.
//!
//! [`spaces`] has the laws of an address space, [`nodes`] those of a guest and of a node, [`worlds`] those of a migration whose contents
//! change, [`sides`] those of two nodes in processes of their own, and [`drivers`] those of two drivers.
#![tactic(auto)]

pub mod drivers;
pub mod nodes;
pub mod sides;
pub mod spaces;
pub mod worlds;
