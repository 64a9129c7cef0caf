//! The machine: what an address space, a node and a world are, what each step answers, how it changes the world, and the theorems for
//! every list of steps. There is no code here to run.
//!
//! - One address space. `specs/Host.antt` says which flat memory the pages of a host represent. `specs/Userfault.antt` of `mig_base`,
//!   `specs/Space.antt` and `specs/Ioctls.antt` say what a userfault object is, and what loads, stores, map calls and the calls of the
//!   object do.
//! - The two nodes. `specs/Cpus.antt` and `specs/Guest.antt` define the processors and their memory; `specs/Log.antt` and
//!   `specs/Source.antt` the source; `specs/Owed.antt` and `specs/Destination.antt` the destination; `specs/Wire.antt` the frames between
//!   them, `specs/Lengths.antt` how many bytes a frame has, and `specs/Faults.antt` which frames a node does not take.
//! - Their steps: `specs/GuestSteps.antt`, `specs/SourceSteps.antt` and `specs/DestinationSteps.antt`, each on the node alone, with its
//!   refusals in order. `specs/NodeSteps.antt` has what a step gives, and `specs/Effects.antt` what steps report.
//! - A migration, which the crate `world` makes on real tables. `specs/Migration.antt` has the world, and each step as a step of the
//!   world; `specs/Views.antt` what the getters of a world return, and `specs/Runs.antt` the runs that are short of memory.
//!   `specs/Handlers.antt` names the calls of the userfault objects that steps stand for. The laws are in the words of
//!   `specs/Whereabouts.antt`, `specs/Promises.antt`, `specs/Parts.antt`, `specs/Replies.antt`, `specs/Unbroken.antt` and
//!   `specs/Bounds.antt`. `specs/Invariant.antt` has the induction, which only the law [`migration::the_invariant`] needs.
//!
//! [`laws`] has what is proved of an address space; [`migration`], [`bounds`] and [`handlers`] have what is proved of a migration.
#![tactic(auto)]

pub mod bounds;
pub mod handlers;
pub mod laws;
pub mod migration;
