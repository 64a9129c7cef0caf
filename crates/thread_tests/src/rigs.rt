//! `Rig`: its seats, its workers, its claims, and two processors in threads of their own. Where memory is refused the tests look at what it
//! has left: a command that sleeps, a page that is pushed again, a world that is handed back.

mod claims;
mod gates;
mod memory;
mod one_step;
mod outcomes;
mod processors;
mod refusals;
mod seats;
pub mod setup;
mod steps;
mod turns;
