//! The world of a migration: the two nodes, the three wires between them, and the transcript.
//!
//! [`World::step`] makes one step: of a processor, a fault handler or a pusher, a delivery, a break or a resume. [`World::run`] makes
//! steps in turn, and [`World::would`] says how a step would be refused. The caller chooses the schedule; a world never chooses. Each node
//! changes by its own calls alone, and the nodes communicate over the wires alone. A step reserves room on its wire, has its node make it
//! or refuse it, and puts on the wire what the node sends, which then takes no memory. Where there is no room, the step is still refused
//! for any other reason first.
//!
//! Contracts see a world as the machine's (`mig_model`, `specs/Migration.antt`): a step returns the machine's effect or refusal and leaves
//! the machine's next world, or it runs out of memory and changes nothing. Every world is reached by some list of steps, so every law of
//! such worlds holds for it. `specs/Core.antt` has the first promise, in words that know nothing of the machine's steps, and
//! `specs/Headline.antt` all of them in one record. [`World::step`] promises both, [`World::run`] and [`World::headline`] the second.
//!
//! The modules: `parts` (the parts of a world, and their steps, by kind), `frames` (how a node takes a frame, and frames that are put on a
//! wire), `world` (the type that callers see).
#![tactic(auto)]

mod frames;
mod parts;
pub mod prelude;
pub mod world;

pub use crate::world::World;
