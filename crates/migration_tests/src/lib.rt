//! Tests of the world of a migration (`world`) and of the steps to completion (`finish`), where no script reaches: what a caller sees of
//! a world, copies of worlds, the greatest counts, a channel that breaks after each step, and refused memory. What a script can say is a
//! test of `stories`, which also finishes each of its scripts from each prefix.
//!
//! A test is a table of steps with the answers that are wanted, worked out by hand. One loop plays a table; where a step is refused it
//! looks that the world is as before, and where memory was refused it makes the step again. So a test passes whichever allocation is
//! refused.
#![tactic(auto)]

#[cfg(test)]
mod answers;
#[cfg(test)]
mod breaks;
#[cfg(test)]
mod calls;
#[cfg(test)]
mod copies;
#[cfg(test)]
mod counts;
#[cfg(test)]
mod edges;
#[cfg(test)]
mod everywhere;
#[cfg(test)]
mod looks;
#[cfg(test)]
mod openings;
#[cfg(test)]
mod play;
#[cfg(test)]
mod refusals;
#[cfg(test)]
mod runs;
#[cfg(test)]
mod scenes;
